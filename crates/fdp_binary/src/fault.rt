ghost use Rattle.std.specs.Prelude.{◌≡◌};

/// What is wrong with a frame, in the order in which it is told.
#[derive(Clone, Copy, Debug, PartialEq, Eq)]
pub enum StreamFaultKind {
    /// A reserved bit or byte of its head or of its entry is not zero.
    Head,
    /// It is a create, which has no frame.
    Create,
    /// Its data are longer or shorter than those that its entry has.
    Length,
    /// With it there are more than 8,192 commands, or more than 8,192 blocks over the reads.
    Many,
    /// The stream ends within it.
    Cut,
}

impl StreamFaultKind {
    ghost use Rattle.fdp_binary.specs.FaultWord.{kind_word};

    /// Its word in the fault line.
    pub fn word(self) -> &'static str
        ensures { result.now ≡ kind_word self }
    {
        match self {
            StreamFaultKind::Head => "head",
            StreamFaultKind::Create => "create",
            StreamFaultKind::Length => "length",
            StreamFaultKind::Many => "many",
            StreamFaultKind::Cut => "cut",
        }
    }
}

/// The first frame that is none: the offset of its first byte in the stream, and what is wrong with it.
#[derive(Clone, Copy, Debug, PartialEq, Eq)]
pub struct StreamFault {
    pub at: u64,
    pub kind: StreamFaultKind,
}

/// Why a piece was not taken.
#[derive(Clone, Copy, Debug, PartialEq, Eq)]
pub enum FeedError {
    Fault(StreamFault),
    NoMemory,
}
