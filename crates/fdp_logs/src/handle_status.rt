ghost use Rattle.std.specs.Prelude.{◌≡◌, ◌++◌};
ghost use Rattle.std.specs.Int.{to_le_bytes, w16, w64};
ghost use Rattle.fdp_rules.specs.LogPages.{zeros};

use fdp_layouts::{Frame, RuhStatusDesc, RuhStatusHead};

/// The head of the reclaim unit handle status: how many descriptors stand behind it.
pub fn status_head(descriptors: u16) -> [u8; 16]
    ensures { result ≡ zeros 14 ++ to_le_bytes w16 descriptors }
{
    RuhStatusHead { descriptors }.encode()
}

/// A descriptor of the reclaim unit handle status: a placement identifier, its reclaim unit handle, no time, and how many
/// blocks its reclaim unit still takes.
pub fn status_frame(pid: u16, ruh: u16, left: u64) -> [u8; 32]
    ensures { result ≡ to_le_bytes w16 pid ++ to_le_bytes w16 ruh ++ zeros 4 ++ to_le_bytes w64 left ++ zeros 16 }
{
    RuhStatusDesc {
        pid,
        ruhid: ruh,
        earutr: 0,
        ruamw: left,
    }
    .encode()
}
