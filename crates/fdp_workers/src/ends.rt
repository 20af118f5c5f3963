use crate::receipt::Receipt;
use crate::stop::Stop;
use fdp_base::Recorded;
use fdp_gauge::Pass;
use fdp_lock::Seat;

/// How a worker ended.
#[derive(Clone, Copy, Debug, PartialEq, Eq)]
pub enum End {
    /// Its work is done.
    Whole,
    NoMemory,
    /// A further step is needed, and the drive has made all that it may make.
    Turns,
}

/// What a host gives back: its seat and its pass, a receipt for each command that it completed, and how it ended.
#[derive(Drop)]
pub struct HostEnd<V: Recorded> {
    pub seat: Seat<V>,
    pub pass: Pass,
    pub receipts: Vec<Receipt>,
    pub end: End,
}

/// What a collector gives back: its seat and its pass, and how it ended.
#[derive(Drop)]
pub struct CollectorEnd<V: Recorded> {
    pub seat: Seat<V>,
    pub pass: Pass,
    pub end: End,
}
