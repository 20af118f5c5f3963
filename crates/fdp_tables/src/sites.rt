ghost use Rattle.std.specs.Prelude.{◌≡◌, map};
ghost use Rattle.fdp_rules.specs.PlainState.{PageName.written};
ghost use Rattle.fdp_rules.specs.Sites.{is_there, site_of};
ghost use Rattle.fdp_tables.specs.Copies.{copy_of};
ghost use Rattle.fdp_tables.specs.State.{copies_at, going_of, page_of, plain_of, point_kept, site_at, table_site};

use crate::standing::Standing;
use crate::state::{KeptGoing, KeptPage};
use fdp_base::Spot;

impl Standing<'_> {
    /// Where the page of a write stands.
    pub fn site(&self, ticket: u64, index: u32) -> Option<Spot>
        ensures { result ≡ site_at self.now (written ticket index) }
    {
        self.kept.sites.get(ticket, index)
    }

    /// What relocation copied in a group since its last pass.
    pub fn copies_in(&self, rg: u16) -> &[(Spot, Spot)]
        ensures { map copy_of result.now ≡ copies_at self.now rg }
    {
        match self.kept.copies.as_slice().get(usize::from(rg)) {
            Some(copies) => copies.as_slice(),
            None => &[],
        }
    }

    /// Where the page of a block stands.
    pub fn site_of_page(&self, page: KeptPage) -> Option<Spot>
        ensures { result ≡ table_site self.now (page_of page) }
    {
        match page {
            KeptPage::Written { ticket, index } => self.kept.sites.get(ticket, index),
            KeptPage::Found(spot) => self.kept.found.get(u64::from(spot.unit), spot.page),
        }
    }

    /// Where a block stands.
    pub fn site_of(&self, nsid: u32, lba: u64) -> Option<Spot>
        ensures { result ≡ site_of (point_kept self.now) nsid lba }
    {
        match self.kept.block(nsid, lba) {
            Some(block) => self.site_of_page(block.page),
            None => None,
        }
    }

    /// Whether the namespace of a going write is there, and is the one that it was when the write was started.
    pub fn is_there(&self, going: &KeptGoing) -> bool
        ensures { result ≡ is_there (plain_of self.now) (going_of going.now) }
    {
        match self.space(going.command.nsid()) {
            Some(space) => space.birth == going.birth,
            None => false,
        }
    }
}
