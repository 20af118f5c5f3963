use std::alloc::AllocError;

/// Why an entry was not taken.
#[derive(Clone, Copy, Debug, PartialEq, Eq)]
pub enum Refused {
    /// It is no step after the entries before it: its position, from 1 on, and the number of the rule under which it falls.
    Illegal { at: u64, why: u8 },
    /// There is no memory to take it.
    NoMemory,
}

impl From<AllocError> for Refused {
    ghost use Rattle.std.specs.Prelude.{◌≡◌};
    ghost use Rattle.fdp_plain.specs.declared.refused.Refused.TheVariants.{NoMemory};

    ghost from_gives = { λ _ e. e ≡ NoMemory };

    fn from(_e: AllocError) -> Refused {
        Refused::NoMemory
    }
}
