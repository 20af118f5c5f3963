/// A command of a queue that was completed: its number in the trace and the position of its entry, which has its reply.
#[derive(Clone, Copy, Debug, PartialEq, Eq)]
pub struct Receipt {
    pub number: u16,
    pub position: u64,
}
