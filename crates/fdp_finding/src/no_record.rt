/// Why a text is no record of a run.
#[derive(Clone, Copy, Debug, PartialEq, Eq)]
pub enum NoRecord {
    /// There is no such text.
    Absent,
    /// It has more than 16,777,216 bytes.
    TooLong,
    /// The first line after which no record goes on, from 1.
    Line(usize),
}
