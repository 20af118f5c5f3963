ghost use Rattle.std.specs.Prelude.{◌≡◌, ◌⊎◌, ℕ, ◌*◌, ◌≤◌, ◌<◌, MatchOption, Some};
ghost use Rattle.fdp_passes.specs.Due.{AreOfOneCut, HasCopied, HasNoLive, HasPages, IsDue, IsDueIn, IsFirstLive, IsShort};
ghost use Rattle.fdp_passes.specs.GroupPasses.{Pass};
ghost use Rattle.fdp_units.specs.DataUnits.{is_free};
ghost use Rattle.fdp_units.specs.UnitTable.{HasNoVictim, IsGroup, IsUnit, IsVictim, count_in};

use crate::group_passes::GroupPasses;
use fdp_base::Spot;
use fdp_owners::Owners;
use fdp_units::Units;

/// The next step of relocation in a reclaim group.
#[derive(Clone, Copy, Debug, PartialEq, Eq)]
pub enum Due {
    /// No pass is under way, and none is to begin.
    Nothing,
    /// This page is to be copied.
    Copy(Spot),
    /// Each live page of the victim is copied: the copies are to be moved.
    Move,
    /// This unit has no live page: it is to be erased.
    Erase(u32),
}

/// The unit that a pass that begins empties, if relocation has work in a group.
fn new_victim(units: &Units, rg: u16) -> Option<u32>
    requires { IsGroup units.now rg }
    ensures { MatchOption result ((4 ≤ count_in units.now rg is_free) ⊎ HasNoVictim units.now rg) (λ unit. IsShort units.now rg × IsVictim units.now rg unit) }
{
    if units.free_count(rg) < 4 {
        units.victim(rg)
    } else {
        None
    }
}

/// The first live page of a unit from a page on. It looks at each page until then.
fn first_live(owners: &Owners, unit: u32, first: u32) -> Option<u32>
    requires { HasPages owners.now unit }
    ensures { MatchOption result (HasNoLive owners.now unit first) (λ page. IsFirstLive owners.now first (record { unit = unit; page = page })) }
{
    for page in first..owners.unit_pages() {
        if owners.get(Spot { unit, page }).is_some() {
            return Some(page);
        }
    }
    None
}

/// What is due in a unit that relocation empties: it goes on at a page, and has copied some or none.
fn step_in(owners: &Owners, unit: u32, first: u32, has_copies: bool) -> Due
    requires { HasPages owners.now unit }
    ensures { IsDueIn owners.now unit first has_copies result }
{
    match first_live(owners, unit, first) {
        Some(page) => Due::Copy(Spot { unit, page }),
        None => {
            if has_copies {
                Due::Move
            } else {
                Due::Erase(unit)
            }
        }
    }
}

/// The next step of relocation in a group. It looks at the pages of the victim up to the next live one.
pub fn next_step(passes: &GroupPasses, units: &Units, owners: &Owners, rg: u16) -> Due
    requires group { IsGroup units.now rg }
    requires cut { AreOfOneCut passes.now units.now owners.now }
    requires victim { (pass : Pass) → passes.now.pass ≡ Some pass → IsUnit units.now pass.victim }
    requires copied { HasCopied passes.now owners.now }
    ensures { IsDue passes.now units.now owners.now rg result }
{
    match passes.victim() {
        Some(unit) => step_in(
            owners,
            unit,
            passes.next_page(),
            !passes.copies().is_empty(),
        ),
        None => match new_victim(units, rg) {
            Some(unit) => step_in(owners, unit, 0, false),
            None => Due::Nothing,
        },
    }
}
