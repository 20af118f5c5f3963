ghost use Rattle.std.specs.Prelude.{◌≡◌, ◌≤◌};
ghost use Rattle.fdp_units.specs.GroupTable.{IsBelow, IsPart, Replaces};

/// What is counted of units.
#[derive(Clone, Copy, Debug, PartialEq, Eq)]
pub struct Tally {
    /// Free units.
    pub free: u32,
    /// Units that are out of use.
    pub lost: u32,
    /// Pages that relocation may gain.
    pub toil: u32,
}

impl Tally {
    /// The counts where one unit's part is replaced.
    pub fn replaced(self, before: Tally, now: Tally) -> Tally
        requires part { IsPart before self }
        requires whole { IsBelow 262144 self }
        requires bound { IsBelow 262144 now }
        ensures { Replaces self before now result }
    {
        Tally {
            free: self.free - before.free + now.free,
            lost: self.lost - before.lost + now.lost,
            toil: self.toil - before.toil + now.toil,
        }
    }
}
