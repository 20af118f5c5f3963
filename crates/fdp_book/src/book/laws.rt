ghost use Rattle.fdp_base.specs.Config.{IsValidConfig};
ghost use Rattle.std.specs.Prelude.{◌+◌, ◌<◌, ◌≤◌, ◌^◌};
ghost use Rattle.fdp_book.specs.Book.{IsLed, point_in, state_in};
ghost use Rattle.fdp_book.specs.Saving.{AreSmall};
ghost use Rattle.fdp_history.specs.Listed.{IsListed};
ghost use Rattle.fdp_history.specs.Orderly.{IsOrderly};
ghost use Rattle.fdp_history.specs.Standing.{IsStanding};
ghost use Rattle.fdp_readings.specs.fdp_locations.Located.{AreUnitsOf};
ghost use Rattle.fdp_readings.specs.fdp_pages.Joined.{AreJoined};
ghost use Rattle.fdp_rules.specs.History.{totals_of};
ghost use Rattle.fdp_readings.specs.fdp_trails.Crowded.{IsCrowded};
ghost use Rattle.fdp_units.specs.DataUnits.{is_free};
ghost use Rattle.fdp_units.specs.UnitTable.{HasNoVictim, count_in};

use super::Book;

/// What holds of each book.
impl Book {
    /// The handles and the units are those of the state after the history, what is kept of the pages is joined, and what stands after
    /// the history is orderly, each block in its group. The pages that blocks and going writes point to are theirs.
    pub fn known(&self)
        ensures config { IsValidConfig self.now.config }
        ensures units { AreUnitsOf self.now.config (state_in self.now) self.now.pages }
        ensures joined { AreJoined self.now.pages }
        ensures orderly { IsOrderly self.now.config (point_in self.now) }
        ensures standing { IsStanding self.now.config (point_in self.now) }
        ensures listed { IsListed self.now.config (state_in self.now) }
        ensures led { IsLed self.now }
        ensures generation { (state_in self.now).generation < 2 ^ 32 }
    {
        let _steps = self.log.spent(); // proof: there are few steps
        self.tables.pages.joined(); // proof
    }

    /// The position and the sums leave room for those of an entry more.
    pub fn counted(&self)
        ensures { AreSmall (totals_of self.now.found self.now.entries) }
    {
        let _position = self.log.position(); // proof
    }

    /// The generation has a number for another placement setting.
    pub(crate) fn numbered(&self)
        ensures { (state_in self.now).generation + 1 < 2 ^ 32 }
    {
        let _steps = self.log.spent(); // proof: there are few steps
        self.tables.pages.joined(); // proof
    }

    /// A group in which relocation gains nothing, and at most two units are free, has no room: each write to it exceeds its budget.
    pub fn crowded(&self, rg: u16)
        requires { rg < self.now.config.groups }
        ensures { HasNoVictim self.now.pages.units rg → count_in self.now.pages.units rg is_free ≤ 2 → IsCrowded self.now.pages.units self.now.config (state_in self.now) rg }
    {
        let _ = rg; // proof
        self.tables.pages.joined(); // proof
    }
}
