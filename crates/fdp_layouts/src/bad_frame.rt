/// Why bytes are not a frame of a layout. `at` is an offset.
#[derive(Clone, Copy, Debug, PartialEq, Eq)]
pub enum BadFrame {
    /// The first reserved byte that is not zero.
    Reserved { at: usize },
    /// The first field with a bit or a value that the layout does not name.
    Range { at: usize },
}
