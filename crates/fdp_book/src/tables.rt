ghost use Rattle.std.specs.Prelude.{◌≡◌, ◌≤◌, ◌^◌, IsTrue};
ghost use Rattle.fdp_book.specs.Changes.{blocks_of_change, totals_behind};
ghost use Rattle.fdp_book.specs.Outlined.{CanMake, Counts, Makes};
ghost use Rattle.fdp_book.specs.Saving.{AreSmall};
ghost use Rattle.fdp_records.specs.Borrowed.{change_of};
ghost use Rattle.fdp_records.specs.Limits.{is_within_limits};

use crate::flight::Flight;
use fdp_base::{DriveConfig, Totals};
use fdp_map::Map;
use fdp_outline::{MovedBlock, Outline};
use fdp_readings::Pages;
use fdp_records::ChangeRef;

/// The tables that follow a history.
#[derive(Drop)]
pub struct Tables {
    /// What a checkpoint says of the drive beside the pages of its blocks.
    pub outline: Outline,
    pub map: Map,
    /// By queue; row 0 stays empty.
    pub flights: Vec<Option<Flight>>,
    pub pages: Pages,
}

/// An entry that is not saved counts so many pages of data that were programmed, and units that were erased.
pub fn count(outline: &mut Outline, pages: u64, erases: u64)
    requires small { AreSmall outline.old.totals }
    requires pages { pages ≤ 1 }
    requires erases { erases ≤ 1 }
    ensures { Counts pages erases outline.old outline.new }
{
    let totals = outline.summary().totals;
    outline.set_totals(Totals {
        position: totals.position + 1,
        media_blocks: totals.media_blocks + pages,
        erases: totals.erases + erases,
        ..totals
    });
}

/// A saved change is made in the outline; of a move the blocks that it takes along are given. It takes no memory.
pub fn make(
    outline: &mut Outline,
    config: &DriveConfig,
    change: ChangeRef<'_>,
    moved: &[MovedBlock],
)
    requires can { CanMake config.now (change_of change) moved.now outline.old }
    requires small { AreSmall outline.old.totals }
    requires limits { IsTrue (is_within_limits (change_of change)) }
    ensures { Makes config.now (change_of change.entry) moved.now outline.old outline.new }
{
    let totals = totals_behind(&outline.summary().totals, change);
    outline.apply(config, change, totals, moved);
}

/// The totals behind a change.
pub fn totals_behind(totals: &Totals, change: ChangeRef<'_>) -> Totals
    requires small { AreSmall totals.now }
    requires limits { IsTrue (is_within_limits (change_of change)) }
    ensures { result ≡ totals_behind totals.now (change_of change.entry) }
{
    Totals {
        position: totals.position + 1,
        host_blocks: totals.host_blocks + blocks_of(change),
        ..*totals
    }
}

/// How many blocks a change writes.
fn blocks_of(change: ChangeRef<'_>) -> u64
    ensures { result ≡ blocks_of_change (change_of change.entry) }
{
    match change {
        ChangeRef::Write { pages, .. } => pages.len() as u64,
        ChangeRef::Clear { .. }
        | ChangeRef::Update { .. }
        | ChangeRef::Create { .. }
        | ChangeRef::Delete { .. }
        | ChangeRef::SetFdp { .. }
        | ChangeRef::SetEvents { .. }
        | ChangeRef::Moved { .. }
        | ChangeRef::Shut { .. } => 0,
    }
}
