ghost use Rattle.std.specs.Prelude.{◌≡◌, ◌<◌};
ghost use Rattle.fdp_passes.specs.GroupPasses.{IsLane, lane_of, slot_of};

use fdp_base::Class;

/// The data that relocation may bring together in one unit.
#[derive(Clone, Copy, Debug, PartialEq, Eq)]
pub enum Lane {
    /// Data of all Initial handles.
    Shared,
    /// Data of one Persistent handle.
    Own(u8),
}

impl Lane {
    /// Where the data of a handle of a class goes.
    pub fn of(class: Class, ruh: u8) -> Lane
        requires { ruh < 16 }
        ensures value { result ≡ lane_of class ruh }
        ensures lane { IsLane result }
    {
        match class {
            Class::Initial => Lane::Shared,
            Class::Persistent => Lane::Own(ruh),
        }
    }

    /// Its place among the targets.
    pub fn slot(self) -> usize
        requires { IsLane self }
        ensures { result ≡ slot_of self }
    {
        match self {
            Lane::Shared => 0,
            Lane::Own(ruh) => usize::from(ruh) + 1,
        }
    }
}
