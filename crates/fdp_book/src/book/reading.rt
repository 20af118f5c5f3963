ghost use Rattle.fdp_book.specs.Book.{state_in};
ghost use Rattle.fdp_book.specs.Reading.{StandsAt};

use super::Book;
use fdp_base::Spot;

/// Where a block stands, and the spare bytes of its page.
#[derive(Clone, Copy, Debug, PartialEq, Eq)]
pub struct Page {
    pub spot: Spot,
    pub spare: [u8; 32],
}

impl Book {
    /// The page of a block, if it is there. It takes a constant time.
    pub fn page_of(&self, nsid: u32, lba: u64) -> Option<Page>
        ensures { StandsAt self.now ((state_in self.now).blocks nsid lba) result }
    {
        self.tables.pages.joined(); // proof
        match self.tables.map.get(nsid, lba) {
            Some(mapped) => match self.tables.pages.owner(mapped.spot) {
                Some(owner) => Some(Page {
                    spot: mapped.spot,
                    spare: owner.spare.encode(),
                }),
                // A page where a block stands has an owner.
                None => unreachable!(),
            },
            None => None,
        }
    }
}
