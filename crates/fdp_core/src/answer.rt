use fdp_relocation::{Done, Ticket};

/// What the first step of a command came to.
#[derive(Debug, PartialEq, Eq)]
pub enum Begun {
    Ended(Done),
    /// An accepted write: its pages are still to be placed.
    Going(Ticket),
}

/// What a step of placing pages came to.
#[derive(Debug, PartialEq, Eq)]
pub enum Placed {
    /// Pages are still to be placed.
    More(Ticket),
    /// All pages are placed.
    Ready(Ticket),
    Ended(Done),
}
