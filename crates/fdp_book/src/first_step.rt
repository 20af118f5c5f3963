use fdp_base::{GetLog, Read, Status};
use fdp_commands::Admission;

/// What a command comes to first.
#[derive(Clone, Copy, Debug, PartialEq, Eq)]
pub enum FirstStep {
    /// It is refused with this status.
    Refused(Status),
    /// A read that is not refused.
    Read(Read),
    /// A write that is not refused, and where it goes.
    Write(Admission),
    /// A command that is not refused and changes nothing, and is neither a read nor a log.
    Answered,
    /// A command that is not refused and whose change is saved, and is no write.
    Saved,
    /// A log that is not refused.
    Log(GetLog),
}
