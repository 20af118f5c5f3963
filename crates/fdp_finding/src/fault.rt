ghost use Rattle.std.specs.Prelude.{◌≡◌};
ghost use Rattle.fdp_finding.specs.Faults.{status_of};

use crate::image::ImageFault;
use crate::no_record::NoRecord;
use crate::no_stream::NoStream;
use crate::no_trace::NoTrace;
use fdp_config::{ConfigFault, NoConfig};

/// Why a run ended without its output.
#[derive(Debug, Drop)]
pub enum Fault {
    /// The words have none of the forms `run CONFIG IMAGE TRACE..`, `record CONFIG IMAGE TRACE..`, `stream CONFIG IMAGE STREAM..`,
    /// `stream-record CONFIG IMAGE STREAM..`, `make NUMBER IMAGE` and `audit CONFIG RECORD..`, or one of them begins with `-`.
    Usage,
    /// There is no configuration.
    Config(NoConfig),
    /// There are more traces or streams than queues; `trace` is the number of the first one without a queue.
    NoQueue {
        trace: usize,
    },
    /// The trace of this number, from 1, is none.
    Trace {
        trace: usize,
        cause: NoTrace,
    },
    /// The stream of this number, from 1, is none.
    Stream {
        stream: usize,
        cause: NoStream,
    },
    /// The image is not one that this configuration goes on with.
    Image(ImageFault),
    /// A call failed while the flash was taken or opened, or while a drive was made on it.
    Flash,
    /// A text could not be read.
    Source,
    NoMemory,
    /// A trace needs a further step, and the drive has made all that it may make.
    Turns,
    /// The record is none. Where several are given, `number` is the one it has, from 1, here and below.
    Record {
        number: Option<usize>,
        cause: NoRecord,
    },
    /// An entry of a record's history is none that may follow those before it: the position that is due, and the number of the rule under which the entry falls,
    /// or 0 where its line shows another position.
    Audit {
        number: Option<usize>,
        at: u64,
        why: u8,
    },
    /// The output of a record is not that of its history: the first line that differs, from 1.
    Output {
        number: Option<usize>,
        line: usize,
    },
    /// A change that the record of this number, from 1, tells to be completed with success, at this position, is not in what the next run goes on from.
    Lost {
        number: usize,
        at: u64,
    },
}

impl Fault {
    /// The status of a run that ends with it.
    pub fn status(&self) -> u8
        ensures { result ≡ status_of self.now }
    {
        match self {
            Fault::Usage => 1,
            Fault::Config(_) => 2,
            Fault::NoQueue { .. } => 3,
            Fault::Trace { .. } => 3,
            Fault::Image(_) => 4,
            Fault::Flash => 5,
            Fault::Source => 6,
            Fault::NoMemory => 7,
            Fault::Turns => 9,
            Fault::Stream { .. } => 12,
            Fault::Audit { .. } | Fault::Output { .. } | Fault::Lost { .. } => 13,
            Fault::Record { .. } => 14,
        }
    }
}

impl From<ConfigFault> for Fault {
    ghost use Rattle.std.specs.Prelude.{◌≡◌};
    ghost use Rattle.fdp_finding.specs.Faults.{of_config};

    ghost from_gives = { λ cause fault. fault ≡ of_config cause };

    fn from(cause: ConfigFault) -> Fault {
        match cause {
            ConfigFault::NoMemory => Fault::NoMemory,
            ConfigFault::NotToml
            | ConfigFault::Unknown { .. }
            | ConfigFault::Missing { .. }
            | ConfigFault::Kind { .. }
            | ConfigFault::Range { .. }
            | ConfigFault::NoRoom { .. } => Fault::Config(NoConfig::Faulty(cause)),
        }
    }
}
