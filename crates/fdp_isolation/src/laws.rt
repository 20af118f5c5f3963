ghost use Rattle.std.specs.Prelude.{List, [], ℕ};
ghost use Rattle.fdp_base.specs.declared.command.Write.{Write};
ghost use Rattle.fdp_base.specs.declared.config.DriveConfig.{DriveConfig};
ghost use Rattle.fdp_base.specs.declared.entry.Entry.{Entry};
ghost use Rattle.fdp_base.specs.declared.entry.Spot.{Spot};
ghost use Rattle.fdp_base.specs.Config.{IsValidConfig};
ghost use Rattle.fdp_base.specs.Placement.{geometry_of};
ghost use Rattle.fdp_base.specs.Spare.{data_spare};
ghost use Rattle.fdp_book.specs.declared.ticket.Ticket.{Ticket};
ghost use Rattle.fdp_book.specs.Book.{BookSeen, IsFirst, point_in, state_in};
ghost use Rattle.fdp_book.specs.Reopened.{IsReopened};
ghost use Rattle.fdp_book.specs.Tickets.{IsNextSpot, IsTicketOf};
ghost use Rattle.fdp_book.specs.fdp_locations.Written.{next_spare};
ghost use Rattle.fdp_flash.specs.declared.cell.Cell.{Cell};
ghost use Rattle.fdp_flash.specs.Cells.{EraseMayLeave, IsBlankUnit, ProgramMayLeave};
ghost use Rattle.fdp_book.specs.fdp_found.Finding.{found_in};
ghost use Rattle.fdp_book.specs.fdp_readings.Drawn.{drawn};
ghost use Rattle.fdp_history.specs.Orderly.{IsOrderly};
ghost use Rattle.fdp_history.specs.Standing.{IsStanding};
ghost use Rattle.fdp_isolation.specs.Alone.{AreLeftAlone};
ghost use Rattle.fdp_image.specs.Isolation.{IsIsolatedImage};
ghost use Rattle.fdp_image.specs.Reading.{Reading};
ghost use Rattle.fdp_image.specs.Reads.{fresh_reading};
ghost use Rattle.fdp_image.specs.Saving.{SameDataPages};
ghost use Rattle.fdp_image.specs.Valid.{IsValid};
ghost use Rattle.fdp_isolation.specs.Begun.{OpenedApart};
ghost use Rattle.fdp_isolation.specs.Isolated.{IsIsolatedDrive, LeavesUsed};
ghost use Rattle.fdp_isolation.specs.Laned.{AreLaned, StandsOver, IsKnown};
ghost use Rattle.fdp_isolation.specs.Reads.{ReadsApart};
ghost use Rattle.fdp_rules.specs.PlainState.{Going};
ghost use Rattle.fdp_rules.specs.Point.{Point};
ghost use Rattle.fdp_rules.specs.Step.{IsDataUnit};

/// Where the pages of a book are kept apart, and its cells hold what was written, its data is isolated; and units that were left alone got
/// no page.
pub fn what_is_kept_apart_is_isolated()
    ensures isolated { (b : BookSeen) (cells : List Cell) → StandsOver b cells → AreLaned b cells → IsIsolatedDrive b.config (point_in b) b.entries cells }
    ensures used { (first : List Cell) (es : List Entry) (b : BookSeen) (cells : List Cell) → AreLeftAlone first es b cells → LeavesUsed b.config first es cells }
{}

/// So it is on a fresh drive, whose data units are blank; what such a run began with keeps data apart.
pub fn fresh_drives_are_kept_apart()
    ensures opened { (c : DriveConfig) (b : BookSeen) → IsFirst c b → OpenedApart b.config b.found b.opened }
    ensures laned { (c : DriveConfig) (b : BookSeen) (cells : List Cell) → IsKnown b → IsFirst c b → ((unit : ℕ) → IsDataUnit c unit → IsBlankUnit (geometry_of c) cells unit) → AreLaned b cells }
    ensures alone { (c : DriveConfig) (b : BookSeen) (cells : List Cell) → StandsOver b cells → IsFirst c b → AreLeftAlone cells [] b cells }
{}

/// And on a drive whose image was opened, where what was found keeps its data apart, as an isolated image does: as long as its data pages are
/// those that were opened.
pub fn found_drives_are_kept_apart()
    ensures opened { (c : DriveConfig) (cells : List Cell) (r : Reading) → IsValidConfig c → IsValid c cells r → IsIsolatedImage c cells r → OpenedApart c (found_in c cells r) cells }
    ensures laned { (c : DriveConfig) (opened : List Cell) (r : Reading) (b : BookSeen) (cells : List Cell) → IsValidConfig c → IsValid c opened r → IsReopened c opened r b → OpenedApart c b.found opened → SameDataPages c opened cells → AreLaned b cells }
    ensures alone { (c : DriveConfig) (opened : List Cell) (r : Reading) (b : BookSeen) (cells : List Cell) → IsReopened c opened r b → SameDataPages c opened cells → AreLeftAlone opened b.entries b cells }
{}

/// And so is what a stop leaves within the program of the next page of a write, within an erase, and within calls of system units, by
/// the history as it stood before the call.
pub fn stops_leave_data_isolated()
    ensures placed { (b : BookSeen) (ticket : Ticket) (g : Going) (w : Write) (spot : Spot) (bytes : List ℕ) (cells image : List Cell) → StandsOver b cells → AreLaned b cells → IsTicketOf (state_in b) ticket g → IsNextSpot b ticket g spot → ProgramMayLeave (geometry_of b.config) cells spot (data_spare (next_spare (state_in b) g w)) bytes image → IsIsolatedDrive b.config (point_in b) b.entries image }
    ensures erased { (c : DriveConfig) (p : Point) (es : List Entry) (unit : ℕ) (cells image : List Cell) → EraseMayLeave (geometry_of c) cells unit image → IsIsolatedDrive c p es cells → IsIsolatedDrive c p es image }
    ensures saved { (c : DriveConfig) (p : Point) (es : List Entry) (cells image : List Cell) → SameDataPages c cells image → IsIsolatedDrive c p es cells → IsIsolatedDrive c p es image }
{}

/// What an image reads as is isolated, where it is what an isolated drive draws, or what was found by a run that began with data that was kept
/// apart, or a fresh drive.
pub fn what_is_drawn_or_found_reads_apart()
    ensures drawn { (c : DriveConfig) (p : Point) (es : List Entry) (cells : List Cell) → IsOrderly c p → IsStanding c p → IsIsolatedDrive c p es cells → ReadsApart c cells (drawn c p) }
    ensures found { (c : DriveConfig) (cells : List Cell) (r : Reading) → IsValidConfig c → IsValid c cells r → OpenedApart c (found_in c cells r) cells → ReadsApart c cells r }
    ensures fresh { (c : DriveConfig) (cells : List Cell) → ReadsApart c cells (fresh_reading c) }
{}
