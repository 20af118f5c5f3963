ghost use Rattle.std.specs.Prelude.{◌≡◌, ◌+◌, ◌≤◌, ◌<◌, ◌^◌, suc};
ghost use Rattle.fdp_image.specs.Areas.{record_page};

use fdp_records::Stamp;

/// How a system area is sealed.
#[derive(Clone, Copy, Debug, PartialEq, Eq)]
pub struct Seal {
    pub stamp: Stamp,
    /// How many checkpoint pages stand before the seal.
    pub checkpoint: u32,
    /// How many journal pages stand between them and the seal.
    pub before: u32,
}

impl Seal {
    /// Where a journal page stands in the area, by its number: behind the checkpoint pages, and behind the seal too where those before it are passed.
    pub fn record_page(&self, number: u32) -> u32
        requires { self.now.checkpoint + number < 2 ^ 31 }
        ensures place { result ≡ record_page self.now.checkpoint self.now.before number }
        ensures most { result ≤ suc self.now.checkpoint + number }
    {
        if number < self.before {
            self.checkpoint + number
        } else {
            self.checkpoint + 1 + number
        }
    }
}

/// The current area.
#[derive(Clone, Copy, Debug, PartialEq, Eq)]
pub struct Current {
    pub area: u8,
    pub seal: Seal,
}

/// A look failed, at this moment of the flash.
#[derive(Clone, Copy, Debug, PartialEq, Eq)]
pub struct LookFailed {
    pub moment: u64,
}

/// What a page is behind the checkpoint pages and the journal pages before it.
#[derive(Clone, Copy, Debug, PartialEq, Eq)]
pub enum Step {
    /// The next checkpoint page.
    More,
    /// The next journal page.
    Record,
    /// The seal.
    Seal,
    Other,
}
