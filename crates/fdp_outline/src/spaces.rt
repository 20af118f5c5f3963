//! The places of the namespaces.

ghost use Rattle.std.specs.Prelude.{◌≡◌, ℕ, ◌==◌, ◌<◌, All, if◌then◌else◌, length, slice_set};
ghost use Rattle.std.specs.Option.{option_copied};
ghost use Rattle.fdp_base.specs.Geometry.{IsWithin};
ghost use Rattle.fdp_image.specs.Checkpoint.{in_place};
ghost use Rattle.fdp_snapshot.specs.Rows.{IsSpaceRow};

use fdp_base::Sequence;
use fdp_snapshot::Space;
use std::alloc::Global;
use std::mem;

/// The namespace in the place of an identifier.
pub fn space_at(spaces: &[Option<Space>], nsid: u32) -> Option<&Space>
    requires { length spaces.now ≡ 16 }
    ensures { option_copied result ≡ in_place spaces.now nsid }
{
    if nsid == 0 || nsid > 16 {
        return None;
    }
    spaces[nsid as usize - 1].as_ref()
}

/// Puts a namespace, or none, in the place of an identifier. It takes no memory.
pub fn put(alloc: Global, spaces: &mut Sequence<Option<Space>>, nsid: u32, space: Option<Space>)
    requires nsid { IsWithin 1 16 nsid }
    requires places { length spaces.old ≡ 16 }
    requires rows { All IsSpaceRow spaces.old }
    requires row { IsSpaceRow space }
    ensures spaces { (n : ℕ) → in_place spaces.new n ≡ (if n == nsid then space else in_place spaces.old n) }
    ensures places { length spaces.new ≡ 16 }
    ensures rows { All IsSpaceRow spaces.new }
{
    set_row(alloc, spaces, nsid as usize - 1, space);
}

/// Puts a namespace, or none, in a row.
fn set_row(alloc: Global, spaces: &mut Sequence<Option<Space>>, at: usize, space: Option<Space>)
    requires { at < length spaces.old }
    ensures { spaces.new ≡ slice_set spaces.old at space }
{
    let mut rows = mem::replace(spaces, Sequence::new(alloc)).into_vec();
    rows[at] = space;
    *spaces = Sequence::from_vec(rows);
}
