ghost use Rattle.std.specs.Prelude.{◌≡◌, ◌↔◌, IfOk, IsTrue};

use fdp_base::Bytes;
use std::alloc::AllocError;

/// What a page holds.
#[derive(Clone, Debug, Drop, PartialEq, Eq)]
pub enum Cell {
    /// Erased, and not programmed since.
    Blank,
    /// Neither blank nor readable: a stop or a failed call left it so.
    Torn,
    /// Programmed with its spare bytes and the bytes of a block.
    Whole { spare: [u8; 32], bytes: Bytes },
}

impl Cell {
    /// A second copy. It fails only for want of memory.
    pub fn copied(&self) -> Result<Cell, AllocError>
        ensures { IfOk result (λ copy. copy ≡ self.now) }
    {
        self.clone()
    }

    pub fn is_blank(&self) -> bool
        ensures { IsTrue result ↔ (self.now ≡ Cell.Blank) }
    {
        match self {
            Cell::Blank => true,
            Cell::Torn => false,
            Cell::Whole { spare: _, bytes: _ } => false,
        }
    }
}
