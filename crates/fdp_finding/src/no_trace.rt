use fdp_trace::FaultKind;

/// Why a text is that of no trace.
#[derive(Clone, Copy, Debug, PartialEq, Eq)]
pub enum NoTrace {
    /// There is no such text.
    Absent,
    /// It has more than 16,777,216 bytes.
    TooLong,
    /// Its first bad line, from 1.
    Line { line: usize, kind: FaultKind },
}
