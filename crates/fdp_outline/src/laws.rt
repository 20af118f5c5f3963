ghost use Rattle.std.specs.Prelude.{◌≡◌, ◌<◌, ◌≤◌, ℕ, List, Option, Some, length, sum_by};
ghost use Rattle.fdp_base.specs.declared.config.DriveConfig.{DriveConfig};
ghost use Rattle.fdp_base.specs.declared.entry.Totals.{Totals};
ghost use Rattle.fdp_base.specs.declared.event.Event.{Event};
ghost use Rattle.fdp_snapshot.specs.declared.state.Summary.{Summary};
ghost use Rattle.fdp_image.specs.Checkpoint.{reading_of_state};
ghost use Rattle.fdp_image.specs.Reading.{Reading, size_in};
ghost use Rattle.fdp_image.specs.Fits.{blocks_of_all, handles_in};
ghost use Rattle.fdp_image.specs.Replacing.{IsSavedBy, NamesSizes};
ghost use Rattle.fdp_image.specs.Valid.{IsGoodNamespace};
ghost use Rattle.fdp_outline.specs.Events.{AddsEvents, with_events};
ghost use Rattle.fdp_outline.specs.Outline.{IsOutlineOf, IsWritable};
ghost use Rattle.fdp_outline.specs.Pages.{ArePagesOf};
ghost use Rattle.fdp_base.specs.Placement.{full_budget};
ghost use Rattle.fdp_rules.specs.PlainState.{Namespace};
ghost use Rattle.fdp_rules.specs.Room.{namespace_ids};
ghost use Rattle.fdp_snapshot.specs.Checkpoint.{IsState};
ghost use Rattle.fdp_snapshot.specs.Reading.{blocks_in};

/// With the pages of the blocks an outline says what the image of its drive says, and names the sizes of the drive.
pub fn an_outline_says_the_reading()
    ensures sizes { (c : DriveConfig) (r : Reading) (s : Summary) (lists : List (List (Option ℕ))) → IsOutlineOf c r s → NamesSizes c (record { summary = s; pages = lists }) }
    ensures says { (c : DriveConfig) (r : Reading) (s : Summary) (lists : List (List (Option ℕ))) → IsOutlineOf c r s → s.totals ≡ r.totals → ArePagesOf r lists → reading_of_state (record { summary = s; pages = lists }) ≡ r }
{}

/// With the events of an entry, those that are kept, an outline is that after the entry, where that adds no more than events, pages and sums; and
/// totals do not matter.
pub fn events_keep_an_outline()
    ensures events { (c : DriveConfig) (old new : Reading) (es : List Event) (s : Summary) → IsOutlineOf c old s → AddsEvents old es new → IsOutlineOf c new (with_events s es) }
    ensures totals { (c : DriveConfig) (r : Reading) (s : Summary) (totals : Totals) → IsOutlineOf c r s → IsOutlineOf c r (record s { totals = totals }) }
    ensures later { (c : DriveConfig) (r : Reading) (s : Summary) (totals : Totals) → IsOutlineOf c r s → IsOutlineOf c (record r { totals = totals }) s }
{}

/// An outline with the pages of the blocks is a state that a checkpoint has room for, and its namespaces have together as many blocks as the image says.
pub fn an_outline_with_its_pages_has_room()
    ensures state { (c : DriveConfig) (r : Reading) (s : Summary) (lists : List (List (Option ℕ))) → IsOutlineOf c r s → IsWritable s → ArePagesOf r lists → IsState (record { summary = s; pages = lists }) }
    ensures blocks { (c : DriveConfig) (r : Reading) (s : Summary) → IsOutlineOf c r s → IsWritable s → blocks_in s.spaces ≡ sum_by (size_in r) namespace_ids }
{}

/// An outline of what a drive may say, an index of its configuration and namespaces that it may have, is one that the drive saves: each field is such
/// as an opening takes.
pub fn an_outline_is_saved()
    ensures { (c : DriveConfig) (r : Reading) (s : Summary) (lists : List (List (Option ℕ))) → IsOutlineOf c r s → IsWritable s → s.totals ≡ r.totals → r.index < length c.fdp → ((nsid : ℕ) (x : Namespace) → r.namespaces nsid ≡ Some x → IsGoodNamespace (handles_in c r) r.totals.position x) → blocks_of_all r ≤ full_budget c (handles_in c r) → IsSavedBy c (record { summary = s; pages = lists }) }
{}
