ghost use Rattle.fdp_book.specs.Book.{point_in};

use super::Book;
use fdp_base::DriveConfig;
use fdp_commands::Drive;

/// What the checks of a command look up.
impl Drive for Book {
    ghost config = { λ b. b.config };

    ghost point = { point_in };

    fn config(&self) -> &DriveConfig {
        &self.config
    }

    fn is_enabled(&self) -> bool {
        self.summary().enabled
    }

    fn size(&self, nsid: u32) -> Option<u64> {
        self.tables.outline.size(nsid)
    }

    fn handle_count(&self, nsid: u32) -> usize {
        self.tables.outline.handles(nsid).len()
    }

    fn handle(&self, nsid: u32, at: u16) -> Option<u8> {
        self.tables
            .outline
            .handles(nsid)
            .get(usize::from(at))
            .copied()
    }

    fn handles_in_force(&self) -> u8 {
        let summary = self.summary();
        self.config.handle_count(summary.enabled, summary.index)
    }

    fn budget(&self, rg: u16) -> u32 {
        let lost = self.tables.pages.units().lost(rg);
        self.config.budget(self.handles_in_force(), lost)
    }

    fn stored(&self, rg: u16) -> u128 {
        u128::from(self.tables.map.stored(rg))
    }

    fn stored_without(&self, rg: u16, nsid: u32, slba: u64, count: u32) -> u128 {
        let replaced = self.tables.map.stored_among(rg, nsid, slba, count);
        u128::from(self.tables.map.stored(rg) - replaced)
    }
}
