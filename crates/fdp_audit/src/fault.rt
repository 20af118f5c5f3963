use fdp_plain::Refused;
use fdp_reader::RecordFault;
use std::alloc::AllocError;

/// Why texts are not the records of runs that followed one another on one image.
#[derive(Clone, Copy, Debug, PartialEq, Eq)]
pub struct AuditFault {
    /// The number of the record of which it is told, from 1.
    pub number: usize,
    pub cause: RunFault,
}

/// Why a text is not the record of a run that goes on from those before it.
#[derive(Clone, Copy, Debug, PartialEq, Eq)]
pub enum RunFault {
    /// It is no record: the first line after which none goes on, from 1.
    Line(usize),
    /// An entry of its history is none that may follow those before it: the position that is due, and the number of the rule under which the entry
    /// falls, or 0 where its line shows another position.
    Illegal { at: u64, why: u8 },
    /// Its output is not that of its history: the first line that differs, from 1. A line that is missing counts where it is due.
    Output { line: usize },
    /// A change that it tells to be completed, at this position, is not among what the next run goes on from.
    Lost { at: u64 },
    NoMemory,
}

impl From<AllocError> for RunFault {
    ghost use Rattle.std.specs.Prelude.{◌≡◌};
    ghost use Rattle.fdp_audit.specs.declared.fault.RunFault.TheVariants.{NoMemory};

    ghost from_gives = { λ _ fault. fault ≡ NoMemory };

    fn from(_e: AllocError) -> RunFault {
        RunFault::NoMemory
    }
}

impl From<RecordFault> for RunFault {
    ghost use Rattle.std.specs.Prelude.{◌≡◌};
    ghost use Rattle.fdp_audit.specs.Steps.{of_record};

    ghost from_gives = { λ cause fault. fault ≡ of_record cause };

    fn from(cause: RecordFault) -> RunFault {
        match cause {
            RecordFault::Line(line) => RunFault::Line(line),
            RecordFault::NoMemory => RunFault::NoMemory,
        }
    }
}

impl From<Refused> for RunFault {
    ghost use Rattle.std.specs.Prelude.{◌≡◌};
    ghost use Rattle.fdp_audit.specs.Steps.{of_refusal};

    ghost from_gives = { λ cause fault. fault ≡ of_refusal cause };

    fn from(cause: Refused) -> RunFault {
        match cause {
            Refused::Illegal { at, why } => RunFault::Illegal { at, why },
            Refused::NoMemory => RunFault::NoMemory,
        }
    }
}
