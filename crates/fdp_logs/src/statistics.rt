ghost use Rattle.std.specs.Prelude.{◌≡◌, ◌++◌};
ghost use Rattle.std.specs.Int.{to_le_bytes, w128};
ghost use Rattle.fdp_rules.specs.LogPages.{statistics_log, zeros};

use fdp_base::{DriveConfig, Totals};
use fdp_layouts::{Frame, Stats};

/// Log 22h of three sums of bytes: that hosts wrote, that were programmed, that were erased.
pub fn sums_frame(written: u128, programmed: u128, erased: u128) -> [u8; 64]
    ensures { result ≡ to_le_bytes w128 written ++ to_le_bytes w128 programmed ++ to_le_bytes w128 erased ++ zeros 16 }
{
    Stats {
        hbmw: written,
        mbmw: programmed,
        mbe: erased,
    }
    .encode()
}

/// Log 22h of a drive with these sums. No sum is too large for its field.
pub fn statistics_log(config: &DriveConfig, totals: &Totals) -> [u8; 64]
    ensures { result ≡ statistics_log config.now totals.now }
{
    let block = u128::from(config.block);
    let unit = block * u128::from(config.unit_pages);
    sums_frame(
        block * u128::from(totals.host_blocks),
        block * u128::from(totals.media_blocks),
        unit * u128::from(totals.erases),
    )
}
