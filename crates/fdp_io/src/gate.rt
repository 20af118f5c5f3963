/// A point of a worker's way.
#[derive(Clone, Copy, Debug, PartialEq, Eq)]
pub enum Point {
    /// A command is about to be begun, or a collector is about to take a turn.
    Begun,
    /// A step that places a page was made.
    Placed,
    /// All pages of a write are placed, and it is about to be ended.
    BeforeCommit,
    /// A collector copied a page.
    Copied,
    /// A command was completed, and its receipt is there.
    Ended,
}

/// What workers call between their turns. It has no effect on results, and may spend time.
pub trait Gate {
    /// A host calls it with the number of its queue, a collector with 0.
    fn at(&self, queue: u8, point: Point);
}

/// A gate that does nothing.
#[derive(Clone, Copy, Debug, PartialEq, Eq)]
pub struct OpenGate;

impl Gate for OpenGate {
    fn at(&self, _queue: u8, _point: Point) {}
}
