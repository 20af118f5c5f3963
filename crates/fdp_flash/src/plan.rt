ghost use Rattle.std.specs.Prelude.{◌≡◌, IsTrue, []};
ghost use Rattle.fdp_flash.specs.Plan.{fate_of, planned_failure, plan_is_empty, keeps_calls, fails};

use fdp_base::Sequence;
use std::alloc::Global;

/// What a planned failure or stop leaves of the page that is programmed, or of each page of the unit that is erased.
/// For an erase `Whole` leaves each page as it was.
#[derive(Clone, Copy, Debug, PartialEq, Eq)]
pub enum Outcome {
    Blank,
    Whole,
    Torn,
}

/// What becomes of a call.
#[derive(Clone, Copy, Debug, PartialEq, Eq)]
pub enum Fate {
    /// It does what it is called for.
    Done,
    /// It fails and leaves this.
    Fails(Outcome),
    /// It fails and leaves all as it was.
    Refused,
}

impl Fate {
    /// Whether the call fails.
    pub fn fails(self) -> bool
        ensures { result ≡ fails self }
    {
        match self {
            Fate::Done => false,
            Fate::Fails(_) => true,
            Fate::Refused => true,
        }
    }
}

/// Which calls of a flash in memory fail, by their moments. The first call has moment 1.
///
/// With `calls` above 0 the flash keeps a list of so many calls and tells the images of each; the calls after them are
/// refused. With `calls` 0 it keeps no list and refuses none.
#[derive(Debug, Drop)]
pub struct Plan {
    pub calls: u32,
    /// The moments of the calls that are to fail, and what each is to leave. Of several for one moment the first counts.
    pub failing: Sequence<(u64, Outcome)>,
    /// The call with which the flash stops: it fails, and all calls after it are refused.
    pub stop: Option<(u64, Outcome)>,
}

impl Plan {
    /// No call fails, and no list is kept. It takes no memory.
    pub fn empty(alloc: Global) -> Plan
        ensures { IsTrue (plan_is_empty result) }
    {
        Plan {
            calls: 0,
            failing: Sequence::new(alloc),
            stop: None,
        }
    }

    /// Whether the flash keeps a list of its calls.
    pub fn keeps_calls(&self) -> bool
        ensures { result ≡ keeps_calls self.now }
    {
        self.calls > 0
    }

    /// What becomes of the call of a moment. It looks through all of `failing`.
    pub fn fate(&self, moment: u64) -> Fate
        ensures { result ≡ fate_of self.now moment }
    {
        if self.calls > 0 && (self.calls as u64) < moment {
            return Fate::Refused;
        }
        match self.stop {
            Some((at, _)) if at < moment => Fate::Refused,
            Some((at, outcome)) if at == moment => Fate::Fails(outcome),
            Some(_) | None => failure_at(self.failing.as_slice(), moment),
        }
    }
}

fn failure_at(failing: &[(u64, Outcome)], moment: u64) -> Fate
    ensures { result ≡ planned_failure failing.now moment }
{
    for &(at, outcome) in failing {
        if at == moment {
            return Fate::Fails(outcome);
        }
    }
    Fate::Done
}
