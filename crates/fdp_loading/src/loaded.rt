use fdp_keeper::{Book, Keeper};

/// What the run of a drive begins with: its history, and what saves it.
#[derive(Drop)]
pub struct Loaded {
    pub book: Book,
    pub keeper: Keeper,
}
