ghost use Rattle.std.specs.Prelude.{◌≡◌, ◌≤◌, IsTrue, if◌then◌else◌};
ghost use Rattle.fdp_base.specs.Counts.{Rose, counted};

/// The calls of a thing in memory, and those of them that are to fail.
#[derive(Debug, Drop)]
pub struct Calls {
    made: u64,
    faults: u64,
    failing: Vec<u64>,
}

impl Calls {
    ghost use Rattle.fdp_io.specs.Calls.{MakesCall, calls_of, faults_of, no_call};

    /// No call yet. The calls with the numbers of `failing`, counted from 1, will fail.
    pub fn new(failing: Vec<u64>) -> Calls
        ensures { calls_of result ≡ no_call failing.items }
    {
        Calls {
            made: 0,
            faults: 0,
            failing,
        }
    }

    pub fn faults(&self) -> u64
        ensures { result ≡ faults_of self.now }
    {
        self.faults
    }

    /// Counts a fault.
    pub fn fail(&mut self)
        ensures fault { calls_of self.new ≡ record (calls_of self.old) { faults = counted (faults_of self.old) } }
        ensures later { faults_of self.old ≤ faults_of self.new }
    {
        self.faults = self.faults.saturating_add(1);
    }

    /// Begins a call, and says whether it fails, which is then counted.
    pub fn begin(&mut self) -> bool
        ensures call { MakesCall (calls_of self.old) (calls_of self.new) result }
        ensures fails { IsTrue result → Rose (faults_of self.old) (faults_of self.new) }
        ensures later { faults_of self.old ≤ faults_of self.new }
    {
        self.made = self.made.saturating_add(1);
        let fails = self.failing.contains(&self.made);
        self.faults = faults_after(fails, self.faults);
        fails
    }
}

fn faults_after(failed: bool, faults: u64) -> u64
    ensures counted { result ≡ (if failed then counted faults else faults) }
    ensures later { faults ≤ result }
{
    if failed {
        faults.saturating_add(1)
    } else {
        faults
    }
}
