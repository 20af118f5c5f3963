ghost use Rattle.fdp_rules.specs.LogPages.{zeros};
ghost use Rattle.std.specs.Prelude.{◌≡◌, ◌++◌, OnOk};

use std::alloc::AllocError;

/// Appends so many bytes of zero.
pub(crate) fn push_zeros(bytes: &mut Vec<u8>, count: u32) -> Result<(), AllocError>
    ensures { OnOk result (bytes.new.items ≡ bytes.old.items ++ zeros count) }
{
    bytes.resize(bytes.len() + count as usize, 0)
}
