//! What one reclaim unit handle references in a group.
//!
//! | State | `unit` | `left` | a page is placed | it is shut |
//! |---|---|---|---|---|
//! | without a unit | none | `unit_pages` | with a unit (without, where a unit has one page) | without a unit |
//! | with a unit | some | 1 to `unit_pages - 1` | with this unit, `left` one less; without a unit after the last page | without a unit |
ghost use Rattle.std.specs.Prelude.{◌≡◌, ◌-◌, ◌≤◌, ◌<◌, None, IfSome};
ghost use Rattle.fdp_base.specs.declared.config.DriveConfig.{DriveConfig};
ghost use Rattle.fdp_rules.specs.Change.{one_less};
ghost use Rattle.fdp_handles.specs.HandleTable.{MayTake, HasRightLeft, next_spot, reference_of};

use fdp_base::Spot;

/// The unit that a handle references, if any, and how many blocks may still be written to it.
#[derive(Clone, Copy, Debug, PartialEq, Eq)]
pub struct HandleReference {
    pub unit: Option<u32>,
    pub left: u32,
}

impl HandleReference {
    /// A handle without a unit.
    pub fn blank(unit_pages: u32) -> HandleReference
        ensures { result ≡ record { unit = None; left = unit_pages } }
    {
        HandleReference {
            unit: None,
            left: unit_pages,
        }
    }

    /// After a page of a unit was programmed.
    pub fn after_page(&self, unit_pages: u32, unit: u32) -> HandleReference
        requires left { HasRightLeft unit_pages (reference_of self.now) }
        requires unit { MayTake unit (reference_of self.now) }
        ensures value { (c : DriveConfig) → c.unit_pages ≡ unit_pages → reference_of result ≡ one_less c unit (reference_of self.now) }
        ensures left { HasRightLeft unit_pages (reference_of result) }
    {
        if 1 < self.left {
            HandleReference {
                unit: Some(unit),
                left: self.left - 1,
            }
        } else {
            HandleReference::blank(unit_pages)
        }
    }

    /// Where the unit goes on, if there is one.
    pub fn next_page(&self, unit_pages: u32) -> Option<Spot>
        requires left { HasRightLeft unit_pages (reference_of self.now) }
        ensures value { result ≡ next_spot unit_pages (reference_of self.now) }
        ensures within { IfSome result (λ spot. (1 ≤ spot.page) × (spot.page < unit_pages)) }
    {
        match self.unit {
            Some(unit) => Some(Spot {
                unit,
                page: unit_pages - self.left,
            }),
            None => None,
        }
    }
}
