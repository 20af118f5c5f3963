/// The answer to the saving of a change. The moment is that of the call of the flash that failed.
#[derive(Clone, Copy, Debug, PartialEq, Eq)]
pub enum Saved {
    /// A stop from now on leaves the change.
    Done,
    /// The program of its record failed: a stop may leave the change or not, until a checkpoint has ended.
    Doubtful { moment: u64 },
    /// A checkpoint had to come first, and failed: the change was not saved.
    Unsaved { moment: u64 },
}
