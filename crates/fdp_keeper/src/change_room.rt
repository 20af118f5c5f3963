//! Room for what the change of a move names, so that no saving takes memory.

ghost use Rattle.std.specs.Prelude.{IfOk};
ghost use Rattle.fdp_keeper.specs.Ready.{IsReady};

use fdp_base::Copied;
use fdp_outline::MovedBlock;
use std::alloc::{AllocError, Global};

/// The most blocks of one move.
const MOST_BLOCKS: usize = 256;

/// What the change of a move names is listed here, and borrowed by the change. Between two moves it says nothing.
#[derive(Drop)]
pub struct ChangeRoom {
    /// The handles of the blocks of a move.
    pub ruhs: Vec<u8>,
    /// What a move copies.
    pub copies: Vec<Copied>,
    /// The blocks that it moves.
    pub blocks: Vec<MovedBlock>,
}

impl ChangeRoom {
    /// Room for the largest move.
    pub fn new(alloc: Global) -> Result<ChangeRoom, AllocError>
        ensures { IfOk result IsReady }
    {
        let ruhs = Vec::with_capacity(alloc, MOST_BLOCKS)?;
        let copies = Vec::with_capacity(alloc, MOST_BLOCKS)?;
        let blocks = Vec::with_capacity(alloc, MOST_BLOCKS)?;
        Ok(ChangeRoom {
            ruhs,
            copies,
            blocks,
        })
    }
}
