/// The answer to an append.
#[derive(Clone, Copy, Debug, PartialEq, Eq)]
pub enum Appended {
    /// The record stands, and a stop from now on leaves the change.
    Done,
    /// All pages of the area are used; nothing was done.
    AreaFull,
    /// The program of the record failed at this moment. A stop may leave the change or not, until a checkpoint has ended.
    Doubt { moment: u64 },
}
