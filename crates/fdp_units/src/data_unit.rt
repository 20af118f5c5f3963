ghost use Rattle.std.specs.Prelude.{◌≡◌, ◌≤◌, ◌<◌, IsTrue};
ghost use Rattle.fdp_units.specs.DataUnits.{IsSound, free_key, free_unit, is_open, lowered, may_turn, raised, gain_of, turned, used, victim_key};
ghost use Rattle.fdp_units.specs.GroupTable.{tally_of_unit};

use crate::state::UnitState;
use crate::tally::Tally;

/// A data unit.
#[derive(Clone, Copy, Debug, PartialEq, Eq)]
pub struct DataUnit {
    pub state: UnitState,
    /// The page that is used next; all pages behind it are blank.
    pub next: u32,
    /// How many of its pages are live.
    pub live: u32,
}

impl DataUnit {
    /// A unit whose pages are all blank.
    pub fn free() -> DataUnit
        ensures { result ≡ free_unit }
    {
        DataUnit {
            state: UnitState::Free,
            next: 0,
            live: 0,
        }
    }

    /// Whether the unit may come into a state. It is not erased while a page is live.
    pub fn may_turn(self, to: UnitState) -> bool
        ensures { result ≡ may_turn to self }
    {
        self.state.may_become(to) && (self.live == 0 || !to.is_end_of_erase())
    }

    /// The unit in another state.
    pub fn turned(self, unit_pages: u32, to: UnitState) -> DataUnit
        requires sound { IsSound unit_pages self }
        requires may { IsTrue (may_turn to self) }
        ensures value { result ≡ turned unit_pages to self }
        ensures sound { IsSound unit_pages result }
    {
        let next = if to.is_free() {
            0
        } else if self.state.is_free() && to.is_closed() {
            unit_pages
        } else {
            self.next
        };
        DataUnit {
            state: to,
            next,
            live: self.live,
        }
    }

    /// The unit after its next page was used. It is closed after its last one.
    pub fn used(self, unit_pages: u32) -> DataUnit
        requires sound { IsSound unit_pages self }
        requires open { IsTrue (is_open self.state) }
        ensures value { result ≡ used unit_pages self }
        ensures sound { IsSound unit_pages result }
    {
        let next = self.next + 1;
        let state = if next < unit_pages {
            self.state
        } else {
            UnitState::Closed
        };
        DataUnit {
            state,
            next,
            live: self.live,
        }
    }

    /// The unit with one live page more.
    pub fn raised(self, unit_pages: u32) -> DataUnit
        requires sound { IsSound unit_pages self }
        requires page { self.live < self.next }
        ensures value { result ≡ raised self }
        ensures sound { IsSound unit_pages result }
    {
        DataUnit {
            state: self.state,
            next: self.next,
            live: self.live + 1,
        }
    }

    /// The unit with one live page less.
    pub fn lowered(self, unit_pages: u32) -> DataUnit
        requires sound { IsSound unit_pages self }
        requires page { 1 ≤ self.live }
        ensures value { result ≡ lowered self }
        ensures sound { IsSound unit_pages result }
    {
        DataUnit {
            state: self.state,
            next: self.next,
            live: self.live - 1,
        }
    }

    /// Its live pages, if relocation may empty it and gains a page by that.
    pub fn victim_key(self, unit_pages: u32) -> Option<u32>
        ensures { result ≡ victim_key unit_pages self }
    {
        if self.state.is_closed() && self.live < unit_pages {
            Some(self.live)
        } else {
            None
        }
    }

    /// The same key for each free unit.
    pub fn free_key(self) -> Option<u32>
        ensures { result ≡ free_key self }
    {
        if self.state.is_free() { Some(0) } else { None }
    }

    /// The pages that relocation may gain by it.
    fn gain(self, unit_pages: u32) -> u32
        requires { IsSound unit_pages self }
        ensures { result ≡ gain_of unit_pages self }
    {
        match self.state {
            UnitState::Free => 0,
            UnitState::Referenced => 0,
            UnitState::Target => self.next - self.live,
            UnitState::Closed => unit_pages - self.live,
            UnitState::Retired => 0,
            UnitState::Aside => 0,
        }
    }

    /// What it adds to the counts of its group.
    pub fn tally(self, unit_pages: u32) -> Tally
        requires { IsSound unit_pages self }
        ensures { result ≡ tally_of_unit unit_pages self }
    {
        Tally {
            free: u32::from(self.state.is_free()),
            lost: u32::from(self.state.is_lost()),
            toil: self.gain(unit_pages),
        }
    }
}
