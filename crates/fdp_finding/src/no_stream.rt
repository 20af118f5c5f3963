use fdp_binary::StreamFault;

/// Why a text is no stream.
#[derive(Clone, Copy, Debug, PartialEq, Eq)]
pub enum NoStream {
    /// There is no such text.
    Absent,
    /// It has more than 16,777,216 bytes.
    TooLong,
    /// Its first frame that is none.
    Broken(StreamFault),
}
