ghost use Rattle.fdp_base.specs.Numbers.{with_at};
ghost use Rattle.fdp_plain_trail.specs.Places.{HasGroupOf, HasPlaces};
ghost use Rattle.fdp_plain_trail.specs.Rows.{KeepsPlaces};
ghost use Rattle.fdp_base.specs.declared.entry.Spot.{Spot};
ghost use Rattle.fdp_rules.specs.PlainState.{PageName.found, PageName.written};
ghost use Rattle.fdp_rules.specs.Sites.{group_of, last_run, moved_by, outside, traced_by};
ghost use Rattle.fdp_tables.specs.Copies.{copy_of};
ghost use Rattle.fdp_tables.specs.State.{copies_at, point_kept, site_at, table_site, table_trail};
ghost use Rattle.std.specs.Option.{IfSome};
ghost use Rattle.std.specs.Prelude.{◌≡◌, ℕ, ◌+◌, ◌*◌, ◌<◌, ◌==◌, ◌&&◌, if◌then◌else◌, Some, [], ◌∷◌, ◌++◌, Option, length, map, option_map, option_and_then, slice_get};
ghost use Rattle.std.specs.Vec.{vec_items, vec_len, vec_capacity};

use fdp_base::{Entry, Spot};
use fdp_tables::{Kept, last_run};

/// What was copied in a group is forgotten.
fn forget_copies(kept: &mut Kept, rg: u32)
    requires { rg < length kept.old.copies.items }
    ensures copies { copies_at kept.new ≡ with_at (copies_at kept.old) rg [] }
    ensures rest { kept.new ≡ record kept.old { copies = kept.new.copies } }
    ensures rows { length kept.new.copies.items ≡ length kept.old.copies.items }
{
    kept.copies[rg as usize].clear();
}

/// A page was copied in a group.
fn add_copy(kept: &mut Kept, rg: u32, from: Spot, to: Spot)
    requires group { rg < length kept.old.copies.items }
    requires room { IfSome (slice_get kept.old.copies.items rg) (λ copies. vec_len copies < vec_capacity copies) }
    ensures copies { copies_at kept.new ≡ with_at (copies_at kept.old) rg (copies_at kept.old rg ++ record { from = from; to = to } ∷ []) }
    ensures rest { kept.new ≡ record kept.old { copies = kept.new.copies } }
    ensures rows { length kept.new.copies.items ≡ length kept.old.copies.items }
{
    kept.copies[rg as usize].push_reserved((from, to));
}

/// A page of a write stands somewhere.
fn set_site(kept: &mut Kept, ticket: u64, index: u32, spot: Spot)
    requires ticket { ticket < length kept.old.sites.rows }
    requires index { IfSome (slice_get kept.old.sites.rows ticket) (λ pages. index < length pages) }
    ensures sites { (t i : ℕ) → site_at kept.new (written t i) ≡ (if ticket == t && index == i then Some spot else site_at kept.old (written t i)) }
    ensures rest { kept.new ≡ record kept.old { sites = kept.new.sites } }
    ensures rows { length kept.new.sites.rows ≡ length kept.old.sites.rows }
    ensures places { KeepsPlaces kept.old kept.new }
{
    kept.sites.place(ticket, index, spot);
}

/// No page stands in an erased unit any longer.
fn erase_sites(kept: &mut Kept, unit: u32)
    ensures sites { (t i : ℕ) → site_at kept.new (written t i) ≡ option_and_then (outside unit) (site_at kept.old (written t i)) }
    ensures found { (spot : Spot) → table_site kept.new (found spot) ≡ option_and_then (outside unit) (table_site kept.old (found spot)) }
    ensures rest { kept.new ≡ record kept.old { sites = kept.new.sites; found = kept.new.found } }
    ensures rows { length kept.new.sites.rows ≡ length kept.old.sites.rows }
    ensures places { KeepsPlaces kept.old kept.new }
{
    kept.sites.erase(unit);
    kept.found.erase(unit);
}

/// Pages stand where the pass of a group moved them.
fn move_sites(kept: &mut Kept, rg: u16)
    requires { rg < length kept.old.copies.items }
    ensures sites { (t i : ℕ) → site_at kept.new (written t i) ≡ option_map (moved_by (last_run (copies_at kept.old rg))) (site_at kept.old (written t i)) }
    ensures found { (spot : Spot) → table_site kept.new (found spot) ≡ option_map (moved_by (last_run (copies_at kept.old rg))) (table_site kept.old (found spot)) }
    ensures rest { kept.new ≡ record kept.old { sites = kept.new.sites; found = kept.new.found } }
    ensures rows { length kept.new.sites.rows ≡ length kept.old.sites.rows }
    ensures places { KeepsPlaces kept.old kept.new }
{
    let pass = last_run(kept.copies[usize::from(rg)].as_slice());
    kept.sites.relocate(pass);
    kept.found.relocate(pass);
}

/// Where pages stand after an entry, and what was copied. An erase and a move look at the pages of the writes, and of the units that
/// were found, of which one stands in the unit.
#[tactic(auto, unfolding(fdp_rules::specs::Sites::traced_by))]
pub fn trace(kept: &mut Kept, entry: &Entry)
    requires { HasPlaces kept.old entry.now }
    ensures sites { (t i : ℕ) → site_at kept.new (written t i) ≡ (traced_by kept.old.config (point_kept kept.old).trail entry.now).site (written t i) }
    ensures found { (spot : Spot) → table_site kept.new (found spot) ≡ (traced_by kept.old.config (table_trail kept.old) entry.now).site (found spot) }
    ensures copies { copies_at kept.new ≡ (traced_by kept.old.config (point_kept kept.old).trail entry.now).copies }
    ensures rest { kept.new ≡ record kept.old { sites = kept.new.sites; found = kept.new.found; copies = kept.new.copies } }
    ensures site_rows { length kept.new.sites.rows ≡ length kept.old.sites.rows }
    ensures places { KeepsPlaces kept.old kept.new }
    ensures copy_rows { length kept.new.copies.items ≡ length kept.old.copies.items }
{
    match entry {
        Entry::Host(_) => {}
        Entry::Started(_) => {}
        Entry::Placed(placed) => set_site(
            kept,
            placed.ticket,
            placed.index,
            Spot {
                unit: placed.unit,
                page: placed.page,
            },
        ),
        Entry::Copied(copied) => add_copy(
            kept,
            kept.group_of(copied.from.unit),
            copied.from,
            copied.to,
        ),
        Entry::Moved(moved) => end_pass(kept, moved.rg),
        Entry::Erased(erased) => empty(kept, erased.unit),
        Entry::Retired(retired) => forget_copies(kept, kept.group_of(retired.unit)),
        Entry::Aside(aside) => forget_copies(kept, kept.group_of(aside.unit)),
        Entry::Shut(_) => {}
        Entry::Worn(worn) => forget_copies(kept, u32::from(worn.rg)),
        Entry::Reopened => {}
    }
}

/// The pass of a group was moved.
fn end_pass(kept: &mut Kept, rg: u16)
    requires { rg < length kept.old.copies.items }
    ensures sites { (t i : ℕ) → site_at kept.new (written t i) ≡ option_map (moved_by (last_run (copies_at kept.old rg))) (site_at kept.old (written t i)) }
    ensures found { (spot : Spot) → table_site kept.new (found spot) ≡ option_map (moved_by (last_run (copies_at kept.old rg))) (table_site kept.old (found spot)) }
    ensures copies { copies_at kept.new ≡ with_at (copies_at kept.old) rg [] }
    ensures rest { kept.new ≡ record kept.old { sites = kept.new.sites; found = kept.new.found; copies = kept.new.copies } }
    ensures site_rows { length kept.new.sites.rows ≡ length kept.old.sites.rows }
    ensures places { KeepsPlaces kept.old kept.new }
    ensures copy_rows { length kept.new.copies.items ≡ length kept.old.copies.items }
{
    move_sites(kept, rg);
    forget_copies(kept, u32::from(rg));
}

/// A unit was erased.
fn empty(kept: &mut Kept, unit: u32)
    requires { HasGroupOf kept.old unit }
    ensures sites { (t i : ℕ) → site_at kept.new (written t i) ≡ option_and_then (outside unit) (site_at kept.old (written t i)) }
    ensures found { (spot : Spot) → table_site kept.new (found spot) ≡ option_and_then (outside unit) (table_site kept.old (found spot)) }
    ensures copies { copies_at kept.new ≡ with_at (copies_at kept.old) (group_of kept.old.config unit) [] }
    ensures rest { kept.new ≡ record kept.old { sites = kept.new.sites; found = kept.new.found; copies = kept.new.copies } }
    ensures site_rows { length kept.new.sites.rows ≡ length kept.old.sites.rows }
    ensures places { KeepsPlaces kept.old kept.new }
    ensures copy_rows { length kept.new.copies.items ≡ length kept.old.copies.items }
{
    erase_sites(kept, unit);
    forget_copies(kept, kept.group_of(unit));
}
