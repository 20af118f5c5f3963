ghost use Rattle.std.specs.Prelude.{◌≡◌, ◌++◌, ◌∷◌};
ghost use Rattle.std.specs.Int.{to_le_bytes, w16};
ghost use Rattle.fdp_rules.specs.LogPages.{zeros};
ghost use Rattle.fdp_layouts.specs.Usage.{usage_code};

use fdp_layouts::{Frame, RuhUse, RuhUseHead, Usage};

/// The head of log 21h: how many reclaim unit handles have their usage behind it.
pub fn usage_head(handles: u16) -> [u8; 8]
    ensures { result ≡ to_le_bytes w16 handles ++ zeros 6 }
{
    RuhUseHead { nruh: handles }.encode()
}

/// The usage of a reclaim unit handle in log 21h.
pub fn usage_frame(usage: Usage) -> [u8; 8]
    ensures { result ≡ usage_code usage ∷ zeros 7 }
{
    RuhUse { usage }.encode()
}
