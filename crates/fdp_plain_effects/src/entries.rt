ghost use Rattle.fdp_base.specs.Numbers.{with_at};
ghost use Rattle.fdp_base.specs.declared.command.Command.{Command};
ghost use Rattle.fdp_base.specs.declared.entry.Entry.TheVariants as entries;
ghost use Rattle.fdp_plain_effects.specs.Going.{HasRoomFor, IsHandlePlace};
ghost use Rattle.fdp_rules.specs.Change.{changed_by, going_with, one_less, placed_references, started};
ghost use Rattle.fdp_rules.specs.Effect.{no_reference, with_reference};
ghost use Rattle.fdp_rules.specs.Sites.{group_of};
ghost use Rattle.fdp_tables.specs.State.{going_of, plain_of, reference_of, row};
ghost use Rattle.std.specs.Option.{IfSome};
ghost use Rattle.std.specs.Prelude.{◌≡◌, ℕ, ◌+◌, ◌*◌, ◌<◌, Bool, true, false, length};

use crate::going::{count_page, going_with, set_going};
use fdp_tables::{Kept, KeptGoing, KeptReference};

/// A unit is out of use from now on.
fn lose(kept: &mut Kept, unit: u32)
    requires { unit < length kept.old.lost.items }
    ensures state { plain_of kept.new ≡ record (plain_of kept.old) { is_lost = with_at (plain_of kept.old).is_lost unit true } }
    ensures rest { kept.new ≡ record kept.old { lost = kept.new.lost } }
    ensures rows { length kept.new.lost.items ≡ length kept.old.lost.items }
{
    kept.lost[unit as usize] = true;
}

/// Whether relocation finds no free unit in a group.
fn set_worn(kept: &mut Kept, rg: u32, worn: bool)
    requires { rg < length kept.old.worn.items }
    ensures state { plain_of kept.new ≡ record (plain_of kept.old) { is_worn = with_at (plain_of kept.old).is_worn rg worn } }
    ensures rest { kept.new ≡ record kept.old { worn = kept.new.worn } }
    ensures rows { length kept.new.worn.items ≡ length kept.old.worn.items }
{
    kept.worn[rg as usize] = worn;
}

/// What a handle of a group references from now on.
pub(crate) fn set_reference(kept: &mut Kept, rg: u16, ruh: u16, reference: KeptReference)
    requires handle { ruh < 16 }
    requires group { 16 * rg + ruh < length kept.old.references.items }
    ensures state { plain_of kept.new ≡ record (plain_of kept.old) { references = with_reference (plain_of kept.old).references rg ruh (reference_of reference) } }
    ensures rest { kept.new ≡ record kept.old { references = kept.new.references } }
    ensures rows { length kept.new.references.items ≡ length kept.old.references.items }
{
    kept.references[16 * usize::from(rg) + usize::from(ruh)] = reference;
}

/// What a handle references after a page more of a unit.
fn one_less(kept: &Kept, unit: u32, reference: KeptReference) -> KeptReference
    ensures { reference_of result ≡ one_less kept.now.config unit (reference_of reference) }
{
    if reference.left > 1 {
        KeptReference {
            unit: Some(unit),
            left: reference.left - 1,
        }
    } else {
        kept.no_reference()
    }
}

/// The handle of the write with this ticket references the unit of its page, or none after the last page.
fn fill_reference(kept: &mut Kept, ticket: u64, unit: u32)
    requires place { IfSome (going_with kept.old.config (plain_of kept.old) ticket) (IsHandlePlace kept.old) }
    ensures state { plain_of kept.new ≡ record (plain_of kept.old) { references = placed_references kept.old.config (plain_of kept.old).references unit (going_with kept.old.config (plain_of kept.old) ticket) } }
    ensures rest { kept.new ≡ record kept.old { references = kept.new.references } }
    ensures rows { length kept.new.references.items ≡ length kept.old.references.items }
{
    if let Some(going) = going_with(kept, ticket) {
        let (rg, ruh) = (going.rg, u16::from(going.ruh));
        let reference = one_less(kept, unit, kept.reference(rg, ruh));
        set_reference(kept, rg, ruh, reference);
    }
}

/// A page of the write with this ticket was programmed in a unit.
#[tactic(auto, unfolding(fdp_rules::specs::Change::changed_by))]
pub(crate) fn change_placed(kept: &mut Kept, ticket: u64, unit: u32)
    requires place { IfSome (going_with kept.old.config (plain_of kept.old) ticket) (IsHandlePlace kept.old) }
    requires room { (queue : ℕ) → HasRoomFor ticket (row kept.old.going.items queue) }
    ensures state { (index page : ℕ) → plain_of kept.new ≡ changed_by kept.old.config (plain_of kept.old) (entries.Placed (record { ticket = ticket; index = index; unit = unit; page = page })) }
    ensures rest { kept.new ≡ record kept.old { references = kept.new.references; going = kept.new.going } }
    ensures references { length kept.new.references.items ≡ length kept.old.references.items }
    ensures going { length kept.new.going.items ≡ length kept.old.going.items }
{
    fill_reference(kept, ticket, unit);
    count_page(kept, ticket);
}

/// A write that was made for it is let go in a queue.
#[tactic(auto, unfolding(fdp_rules::specs::Change::changed_by))]
pub(crate) fn start(kept: &mut Kept, queue: u8, going: KeptGoing)
    requires { queue < length kept.old.going.items }
    ensures state { (number : ℕ) (command : Command) (rg ruh : ℕ) (pid_valid : Bool) → going_of going ≡ started kept.old.config (plain_of kept.old) number command rg ruh pid_valid → plain_of kept.new ≡ changed_by kept.old.config (plain_of kept.old) (entries.Started (record { queue = queue; number = number; command = command; rg = rg; ruh = ruh; pid_valid = pid_valid })) }
    ensures rest { kept.new ≡ record kept.old { going = kept.new.going } }
    ensures rows { length kept.new.going.items ≡ length kept.old.going.items }
{
    set_going(kept, queue, Some(going));
}

/// A unit was erased, so its group is worn no longer.
#[tactic(auto, unfolding(fdp_rules::specs::Change::changed_by))]
pub(crate) fn erase(kept: &mut Kept, unit: u32)
    requires units { 0 < kept.old.config.units }
    requires group { group_of kept.old.config unit < length kept.old.worn.items }
    ensures state { plain_of kept.new ≡ changed_by kept.old.config (plain_of kept.old) (entries.Erased (record { unit = unit })) }
    ensures rest { kept.new ≡ record kept.old { worn = kept.new.worn } }
    ensures rows { length kept.new.worn.items ≡ length kept.old.worn.items }
{
    set_worn(kept, kept.group_of(unit), false);
}

/// A unit is out of use: its erase failed, or a fetch of relocation from it.
#[tactic(auto, unfolding(fdp_rules::specs::Change::changed_by))]
pub(crate) fn retire(kept: &mut Kept, unit: u32)
    requires { unit < length kept.old.lost.items }
    ensures retired { plain_of kept.new ≡ changed_by kept.old.config (plain_of kept.old) (entries.Retired (record { unit = unit })) }
    ensures aside { plain_of kept.new ≡ changed_by kept.old.config (plain_of kept.old) (entries.Aside (record { unit = unit })) }
    ensures rest { kept.new ≡ record kept.old { lost = kept.new.lost } }
    ensures rows { length kept.new.lost.items ≡ length kept.old.lost.items }
{
    lose(kept, unit);
}

/// A program failed, so the handle has no unit in this group.
#[tactic(auto, unfolding(fdp_rules::specs::Change::changed_by))]
pub(crate) fn shut_handle(kept: &mut Kept, rg: u16, ruh: u8)
    requires handle { ruh < 16 }
    requires group { 16 * rg + ruh < length kept.old.references.items }
    ensures state { plain_of kept.new ≡ changed_by kept.old.config (plain_of kept.old) (entries.Shut (record { rg = rg; ruh = ruh })) }
    ensures rest { kept.new ≡ record kept.old { references = kept.new.references } }
    ensures rows { length kept.new.references.items ≡ length kept.old.references.items }
{
    let none = kept.no_reference();
    set_reference(kept, rg, u16::from(ruh), none);
}

/// Relocation found no free unit in a group.
#[tactic(auto, unfolding(fdp_rules::specs::Change::changed_by))]
pub(crate) fn wear(kept: &mut Kept, rg: u16)
    requires { rg < length kept.old.worn.items }
    ensures state { plain_of kept.new ≡ changed_by kept.old.config (plain_of kept.old) (entries.Worn (record { rg = rg })) }
    ensures rest { kept.new ≡ record kept.old { worn = kept.new.worn } }
    ensures rows { length kept.new.worn.items ≡ length kept.old.worn.items }
{
    set_worn(kept, u32::from(rg), true);
}
