ghost use Rattle.std.specs.Prelude.{◌≡◌};
ghost use Rattle.fdp_trace.specs.declared.fault.LineError.TheVariants.{Fault, Memory};

use std::alloc::{AllocError, AllocFailed};

/// What is wrong with a line, in the order in which it is told.
#[derive(Clone, Copy, Debug, PartialEq, Eq)]
pub enum FaultKind {
    /// More than 4,096 bytes; or, behind all others, the line makes more than 8,192 commands, or more than 8,192
    /// blocks over the reads.
    Long,
    /// Not UTF-8.
    Utf8,
    /// An unknown first word, or a wrong fixed word.
    Word,
    /// A wrong number of words.
    Count,
    /// No number where one has to stand.
    Number,
    /// A number out of its range.
    Range,
}

impl FaultKind {
    ghost use Rattle.fdp_trace.specs.FaultWord.{kind_word};

    /// Its word in the fault line.
    pub fn word(self) -> &'static str
        ensures { result.now ≡ kind_word self }
    {
        match self {
            FaultKind::Long => "long",
            FaultKind::Utf8 => "utf8",
            FaultKind::Word => "word",
            FaultKind::Count => "count",
            FaultKind::Number => "number",
            FaultKind::Range => "range",
        }
    }
}

/// Why a trace was not read.
#[derive(Clone, Copy, Debug, PartialEq, Eq)]
pub enum TraceFault {
    /// The first bad line, from 1.
    Line { line: usize, kind: FaultKind },
    NoMemory,
}

impl From<AllocError> for TraceFault {
    ghost use Rattle.fdp_trace.specs.declared.fault.TraceFault.TheVariants.{NoMemory};

    ghost from_gives = { λ _ e. e ≡ NoMemory };

    fn from(_e: AllocError) -> TraceFault {
        TraceFault::NoMemory
    }
}

impl<T: Drop> From<AllocFailed<T>> for TraceFault {
    ghost use Rattle.fdp_trace.specs.declared.fault.TraceFault.TheVariants.{NoMemory};

    ghost from_gives = { λ _ e. e ≡ NoMemory };

    fn from(_e: AllocFailed<T>) -> TraceFault {
        TraceFault::NoMemory
    }
}

/// Why a line was not read. What only judges a line answers a `FaultKind`, which cannot tell want of memory.
#[derive(Clone, Copy, Debug, PartialEq, Eq)]
pub enum LineError {
    Memory,
    Fault(FaultKind),
}

impl From<FaultKind> for LineError {
    ghost from_gives = { λ kind e. e ≡ Fault kind };

    fn from(kind: FaultKind) -> LineError {
        LineError::Fault(kind)
    }
}

impl From<AllocError> for LineError {
    ghost from_gives = { λ _ e. e ≡ Memory };

    fn from(_e: AllocError) -> LineError {
        LineError::Memory
    }
}

impl<T: Drop> From<AllocFailed<T>> for LineError {
    ghost from_gives = { λ _ e. e ≡ Memory };

    fn from(_e: AllocFailed<T>) -> LineError {
        LineError::Memory
    }
}
