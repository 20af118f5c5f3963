//! What a plain drive tells of itself behind the completions of a run.
ghost use Rattle.std.specs.Prelude.{◌≡◌, None, Some, nat_lt, if◌then◌else◌, slice_get};
ghost use Rattle.fdp_rules.specs.History.{totals_of};
ghost use Rattle.fdp_rules.specs.LogPages.{usage_of};
ghost use Rattle.fdp_rules.specs.Room.{handles_in_force};
ghost use Rattle.fdp_plain.specs.Run.{found_of, next_position, point_in, state_in};

use crate::plain::Plain;
use fdp_base::{Event, Totals};
use fdp_plain_answers::{event, totals, usage};
use fdp_tables::Standing;

impl Plain {
    /// The position of the last entry, and the sums.
    pub fn totals(&self) -> Totals
        ensures { result ≡ totals_of (found_of self.now) self.now.entries }
    {
        totals(&Standing::new(&self.kept))
    }

    /// The position of the entry that comes next.
    pub fn next_position(&self) -> u64
        ensures { result ≡ next_position self.now }
    {
        self.kept.next_position()
    }

    /// Whether placement is enabled, and the index of its configuration.
    pub fn fdp(&self) -> (bool, u8)
        ensures enabled { result.0 ≡ (state_in self.now).enabled }
        ensures index { result.1 ≡ (state_in self.now).index }
    {
        (self.kept.enabled, self.kept.index)
    }

    /// Who specified a handle: 0 nobody, since no namespace uses it; 1 a host; 2 the controller. None exactly where there is no handle
    /// of this number. It looks at the list of each namespace.
    pub fn usage(&self, ruh: u8) -> Option<u8>
        ensures { result ≡ if nat_lt ruh (handles_in_force self.now.config (state_in self.now)) then Some (usage_of (state_in self.now) ruh) else None }
    {
        usage(&Standing::new(&self.kept), ruh)
    }

    /// An event that is kept, of hosts or of the controller, the oldest with index 0. None exactly behind the last. It looks at each
    /// event that was ever kept.
    pub fn event(&self, host: bool, index: u32) -> Option<Event>
        ensures { result ≡ slice_get (if host then (point_in self.now).host_events else (point_in self.now).controller_events) index }
    {
        event(&Standing::new(&self.kept), host, index)
    }
}
