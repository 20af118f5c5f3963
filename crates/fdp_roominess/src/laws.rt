ghost use Rattle.std.specs.Prelude.{◌≡◌, ◌≤◌, [], Bool, IsFalse, IsTrue, List, None, Some, false, slice_set, true, ℕ};
ghost use Rattle.std.specs.List.{list_any};
ghost use Rattle.fdp_base.specs.declared.command.Command.{Command};
ghost use Rattle.fdp_base.specs.declared.config.DriveConfig.{DriveConfig};
ghost use Rattle.fdp_base.specs.declared.entry.Copied.{Copied};
ghost use Rattle.fdp_base.specs.declared.entry.Entry.{Entry};
ghost use Rattle.fdp_base.specs.declared.entry.Reply.{Reply};
ghost use Rattle.fdp_base.specs.declared.entry.Spot.{Spot};
ghost use Rattle.fdp_base.specs.declared.status.Status.{Status};
ghost use Rattle.fdp_base.specs.CommandKinds.{is_write};
ghost use Rattle.fdp_base.specs.Config.{IsValidConfig};
ghost use Rattle.fdp_base.specs.Counts.{Rose};
ghost use Rattle.fdp_base.specs.EntryKinds.{wears_group};
ghost use Rattle.fdp_base.specs.Placement.{geometry_of};
ghost use Rattle.fdp_book.specs.declared.ticket.Done.{Done};
ghost use Rattle.fdp_book.specs.declared.ticket.Ticket.{Ticket};
ghost use Rattle.fdp_book.specs.Book.{BookSeen, IsFirst, IsLed, IsLonger, point_in, state_in};
ghost use Rattle.fdp_book.specs.Commanded.{AppliesTo};
ghost use Rattle.fdp_book.specs.Relocating.{MovesPass};
ghost use Rattle.fdp_book.specs.Reopened.{IsReopened};
ghost use Rattle.fdp_book.specs.Steps.{Completes, Places, Starts};
ghost use Rattle.fdp_book.specs.Tickets.{IsNextSpot};
ghost use Rattle.fdp_book.specs.fdp_collector.Ready.{Relocation, lane_at};
ghost use Rattle.fdp_book.specs.fdp_collector.Step.{AddsCopy};
ghost use Rattle.fdp_book.specs.fdp_pages.Joined.{AreJoined};
ghost use Rattle.fdp_book.specs.fdp_pages.PageTables.{PageTables, passes_at, relocation_at};
ghost use Rattle.fdp_book.specs.fdp_pages.Steps.{ChangesOwners};
ghost use Rattle.fdp_book.specs.fdp_readings.Drawn.{drawn};
ghost use Rattle.fdp_durability.specs.Durable.{IsDurable};
ghost use Rattle.fdp_durability.specs.fdp_journal.JournalState.{JournalState};
ghost use Rattle.fdp_flash.specs.declared.cell.Cell.{Cell};
ghost use Rattle.fdp_history.specs.Listed.{IsListed};
ghost use Rattle.fdp_history.specs.Orderly.{IsOrderly};
ghost use Rattle.fdp_history.specs.OrderlyState.{IsOrderlyState};
ghost use Rattle.fdp_image.specs.Reading.{Reading};
ghost use Rattle.fdp_image.specs.Roomy.{IsRoomy};
ghost use Rattle.fdp_image.specs.Valid.{IsValid};
ghost use Rattle.fdp_isolation.specs.Laned.{IsKnown};
ghost use Rattle.fdp_owners.specs.declared.owner.Owner.{Owner};
ghost use Rattle.fdp_owners.specs.OwnerTable.{owner_at};
ghost use Rattle.fdp_passes.specs.declared.due.Due.TheVariants as due;
ghost use Rattle.fdp_passes.specs.Due.{IsDue};
ghost use Rattle.fdp_passes.specs.GroupPasses.{GroupPasses};
ghost use Rattle.fdp_passes.specs.Targets.{OpensPage, Starves};
ghost use Rattle.fdp_rules.specs.Answer.{bare};
ghost use Rattle.fdp_rules.specs.History.{Found, first_state, point_of};
ghost use Rattle.fdp_rules.specs.Legal.{IsLegal};
ghost use Rattle.fdp_rules.specs.PlainState.{Going};
ghost use Rattle.fdp_rules.specs.Point.{Point};
ghost use Rattle.fdp_rules.specs.Step.{Follows, MaySucceed};
ghost use Rattle.fdp_units.specs.declared.state.UnitState.TheVariants.{Free};
ghost use Rattle.fdp_units.specs.DataUnits.{turned};
ghost use Rattle.fdp_units.specs.UnitTable.{Changes, IsGroup, UnitTable, unit_at};
ghost use Rattle.fdp_roominess.specs.Capacity.{IsWhole, exceeds_capacity, tells_loss};
ghost use Rattle.fdp_roominess.specs.Room.{HasRoom, HaveRoom};
ghost use Rattle.fdp_roominess.specs.Roomy.{LeavesRoom};
ghost use Rattle.fdp_roominess.specs.Run.{BeganRoomy, IsRoomyImage, KeepsRoom};

/// A fresh drive has room, and so has one whose image was opened and is roomy.
pub fn drives_begin_with_room()
    ensures fresh { (c : DriveConfig) (b : BookSeen) → IsKnown b → IsFirst c b → HaveRoom b.pages }
    ensures opened { (c : DriveConfig) (cells : List Cell) (r : Reading) (b : BookSeen) → IsKnown b → IsValid c cells r → IsReopened c cells r b → IsRoomy c cells r → HaveRoom b.pages }
{}

/// The end of a command keeps it, with its change or without, and so do the start of a write and a page that is placed.
pub fn commands_keep_room()
    ensures answered { (old new : BookSeen) (queue number : ℕ) (command : Command) (reply : Reply) (moment : ℕ) (done : Done) → IsKnown old → IsLed new → Completes old new [] queue number command reply moment done → ChangesOwners old.pages new.pages → IsFalse reply.applied → HaveRoom old.pages → HaveRoom new.pages }
    ensures written { (old new : BookSeen) (queue moment : ℕ) (g : Going) (status : Status) (done : Done) → IsKnown old → IsLed new → (state_in old).going queue ≡ Some g → MaySucceed old.config (point_in old) g → Completes old new [] queue g.number g.command (bare status true) moment done → ChangesOwners old.pages new.pages → HaveRoom old.pages → HaveRoom new.pages }
    ensures applied { (c : DriveConfig) (command : Command) (t now : PageTables) → AreJoined t → IsFalse (is_write command) → AppliesTo c command t now → HaveRoom t → HaveRoom now }
    ensures started { (old new : BookSeen) (queue number : ℕ) (command : Command) (ticket : Ticket) → IsKnown old → IsLed new → Starts old new queue number command ticket → ChangesOwners old.pages new.pages → HaveRoom old.pages → HaveRoom new.pages }
    ensures placed { (old new : BookSeen) (ticket : Ticket) (g : Going) (spot : Spot) (last : Bool) → IsKnown old → IsNextSpot old ticket g spot → Places old new ticket g spot last → HaveRoom old.pages → HaveRoom new.pages }
{}

/// Relocation keeps it: a page that is copied, copies that are moved, a unit that is erased. And where a copy is due in a group that has it, the
/// copy finds a place.
pub fn relocation_keeps_room()
    ensures copied { (t now : PageTables) (rg : ℕ) (from to : Spot) (x : Owner) (middle : Relocation) (copy : Copied) → AreJoined t → IsGroup t.units rg → now ≡ record t { units = now.units; passes = slice_set t.passes rg (passes_at now rg) } → IsDue (passes_at t rg) t.units t.owners rg (due.Copy from) → owner_at t.owners from ≡ Some x → OpensPage (passes_at t rg) middle.passes t.units middle.units rg from.unit (lane_at t.handles.classes x) to → copy ≡ record { from = from; to = to } → AddsCopy middle (relocation_at now rg) (lane_at t.handles.classes x) copy → HaveRoom t → HaveRoom now }
    ensures moved { (old new : BookSeen) (rg : ℕ) → AreJoined old.pages → IsGroup old.pages.units rg → IsDue (passes_at old.pages rg) old.pages.units old.pages.owners rg due.Move → MovesPass old new rg → HaveRoom old.pages → HaveRoom new.pages }
    ensures erased { (t now : PageTables) (rg unit : ℕ) → AreJoined t → IsGroup t.units rg → now ≡ record t { units = now.units; passes = slice_set t.passes rg (passes_at now rg) } → IsDue (passes_at t rg) t.units t.owners rg (due.Erase unit) → passes_at now rg ≡ record (passes_at t rg) { pass = None } → Changes t.units now.units unit (turned t.units.unit_pages Free (unit_at t.units unit)) → HaveRoom t → HaveRoom now }
    ensures starves { (t : PageTables) (rg : ℕ) (from : Spot) (x : Owner) (p : GroupPasses) (new : UnitTable) → AreJoined t → IsGroup t.units rg → IsDue (passes_at t rg) t.units t.owners rg (due.Copy from) → owner_at t.owners from ≡ Some x → Starves (passes_at t rg) p t.units new rg (lane_at t.handles.classes x) → HasRoom t rg → ⊥ }
{}

/// So a run that began with room has it as long as no call failed: where a step without one keeps it, where a call failed, and where a group
/// was worn, which cannot be while there is room.
pub fn runs_keep_room_until_a_call_fails()
    ensures begun { (faults : ℕ) (told : Bool) (b : BookSeen) → IsFalse (list_any wears_group b.entries) → (BeganRoomy told b → HaveRoom b.pages) → KeepsRoom faults faults told b }
    ensures well { (handed old now : ℕ) (told : Bool) (b new : BookSeen) (es : List Entry) → IsLonger b new es → old ≤ now → KeepsRoom handed old told b → IsFalse (list_any wears_group es) → (HaveRoom b.pages → HaveRoom new.pages) → KeepsRoom handed now told new }
    ensures failed { (handed old now : ℕ) (told : Bool) (b new : BookSeen) (es : List Entry) → IsLonger b new es → old ≤ now → KeepsRoom handed old told b → Rose old now → KeepsRoom handed now told new }
    ensures worn { (handed old now : ℕ) (told : Bool) (b new : BookSeen) (es : List Entry) → IsLonger b new es → old ≤ now → KeepsRoom handed old told b → (HaveRoom b.pages → ⊥) → KeepsRoom handed now told new }
{}

/// What a history draws at a point where its drive has room is roomy, in whatever cells it is read.
pub fn drives_with_room_leave_roomy_images()
    ensures drawn { (b : BookSeen) (r : Reading) → IsKnown b → r.pages ≡ (drawn b.config (point_in b)).pages → HaveRoom b.pages → LeavesRoom b.config r }
    ensures roomy { (c : DriveConfig) (cells : List Cell) (r : Reading) → LeavesRoom c r → IsRoomy c cells r }
    ensures durable { (b : BookSeen) (s : JournalState) (firm : ℕ) (t : UnitTable) (cells : List Cell) → IsKnown b → HaveRoom b.pages → geometry_of b.config ≡ s.geometry → s.in_doubt ≡ false → IsDurable b.config b.found b.entries firm s t cells → IsRoomyImage b.config cells }
{}

/// With one group of which nothing was lost, no command ends with Capacity Exceeded.
pub fn one_whole_group_has_room_for_each_write()
    ensures step { (told : Bool) (c : DriveConfig) (p : Point) (e : Entry) → c.groups ≡ 1 → IsOrderlyState c p.state → IsListed c p.state → IsWhole p.state → Follows told c p e → IsFalse (exceeds_capacity e) }
    ensures history { (told : Bool) (c : DriveConfig) (f : Found) (es : List Entry) → IsValidConfig c → c.groups ≡ 1 → IsOrderly c (point_of c f []) → IsListed c (first_state c f) → IsLegal told c f es → IsFalse (list_any tells_loss es) → IsFalse (list_any exceeds_capacity es) }
{}
