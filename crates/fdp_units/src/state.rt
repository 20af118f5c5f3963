//! What a data unit is to its reclaim group, and which state may follow which.
//!
//! | From | To | When |
//! |---|---|---|
//! | `Free` | `Referenced` | a handle takes it for its next page |
//! | `Free` | `Target` | relocation takes it for its copies |
//! | `Free` | `Closed` | an opening found a page in it that is not blank |
//! | `Referenced` | `Closed` | its last page was used or a program failed, its handle was updated, or placement was set |
//! | `Target` | `Closed` | its last page was used, or placement was set |
//! | `Closed` | `Free` | it was erased |
//! | `Closed` | `Retired` | its erase failed |
//! | `Closed` | `Aside` | a fetch of one of its pages failed |
//!
//! A unit that is `Retired` or `Aside` stays so until the next opening.
ghost use Rattle.std.specs.Prelude.{◌≡◌};
ghost use Rattle.fdp_units.specs.DataUnits.{is_closed, is_end_of_erase, is_free, is_lost, is_open, is_referenced, is_target, may_become};

/// What a data unit is to its reclaim group.
#[derive(Clone, Copy, Debug, PartialEq, Eq)]
pub enum UnitState {
    /// All its pages are blank.
    Free,
    /// A handle references it, and fills it.
    Referenced,
    /// Relocation fills it with copies.
    Target,
    /// It gets no page more before it is erased.
    Closed,
    /// An erase failed; it is out of use until the next opening.
    Retired,
    /// A fetch failed; it is out of use until the next opening.
    Aside,
}

impl UnitState {
    pub fn is_free(self) -> bool
        ensures { result ≡ is_free self }
    {
        match self {
            UnitState::Free => true,
            UnitState::Referenced => false,
            UnitState::Target => false,
            UnitState::Closed => false,
            UnitState::Retired => false,
            UnitState::Aside => false,
        }
    }

    fn is_referenced(self) -> bool
        ensures { result ≡ is_referenced self }
    {
        match self {
            UnitState::Free => false,
            UnitState::Referenced => true,
            UnitState::Target => false,
            UnitState::Closed => false,
            UnitState::Retired => false,
            UnitState::Aside => false,
        }
    }

    fn is_target(self) -> bool
        ensures { result ≡ is_target self }
    {
        match self {
            UnitState::Free => false,
            UnitState::Referenced => false,
            UnitState::Target => true,
            UnitState::Closed => false,
            UnitState::Retired => false,
            UnitState::Aside => false,
        }
    }

    /// Whether it gets pages.
    pub fn is_open(self) -> bool
        ensures { result ≡ is_open self }
    {
        self.is_referenced() || self.is_target()
    }

    pub fn is_closed(self) -> bool
        ensures { result ≡ is_closed self }
    {
        match self {
            UnitState::Free => false,
            UnitState::Referenced => false,
            UnitState::Target => false,
            UnitState::Closed => true,
            UnitState::Retired => false,
            UnitState::Aside => false,
        }
    }

    /// Whether it is out of use.
    pub fn is_lost(self) -> bool
        ensures { result ≡ is_lost self }
    {
        match self {
            UnitState::Free => false,
            UnitState::Referenced => false,
            UnitState::Target => false,
            UnitState::Closed => false,
            UnitState::Retired => true,
            UnitState::Aside => true,
        }
    }

    /// Whether an erase ends in it.
    pub fn is_end_of_erase(self) -> bool
        ensures { result ≡ is_end_of_erase self }
    {
        match self {
            UnitState::Free => true,
            UnitState::Referenced => false,
            UnitState::Target => false,
            UnitState::Closed => false,
            UnitState::Retired => true,
            UnitState::Aside => false,
        }
    }

    /// Whether this state may be followed by another.
    pub fn may_become(self, to: UnitState) -> bool
        ensures { result ≡ may_become self to }
    {
        match self {
            UnitState::Free => to.is_open() || to.is_closed(),
            UnitState::Referenced => to.is_closed(),
            UnitState::Target => to.is_closed(),
            UnitState::Closed => to.is_free() || to.is_lost(),
            UnitState::Retired => false,
            UnitState::Aside => false,
        }
    }
}
