/// The answer to a look at a page.
#[derive(Clone, Copy, Debug, PartialEq, Eq)]
pub enum Seen {
    /// The page is whole, and the buffers hold its spare and its bytes.
    Whole,
    Blank,
    Torn,
    Failed,
}

/// The answer to a fetch of the page that is expected to have a spare.
#[derive(Clone, Copy, Debug, PartialEq, Eq)]
pub enum Fetched {
    /// The page is whole with that spare, and the buffer holds its bytes.
    Whole,
    /// The page is blank, torn or has another spare. A flash that does not tell its cells counts this as a fault.
    Other,
    Failed,
}

/// The answer to a program or an erase.
#[derive(Clone, Copy, Debug, PartialEq, Eq)]
pub enum Wrote {
    Done,
    Failed,
}

/// What a call of the flash did.
#[derive(Clone, Copy, Debug, PartialEq, Eq)]
pub enum Operation {
    Look,
    Fetch,
    Program,
    Erase,
}
