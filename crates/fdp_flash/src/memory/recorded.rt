ghost use Rattle.std.specs.Prelude.{◌≡◌, ◌+◌, ◌≤◌, [], length, IfOk};
ghost use Rattle.std.specs.Vec.{vec_capacity};
ghost use Rattle.fdp_flash.specs.Noted.{Notes, AllOfSize};

use crate::answer::Operation;
use crate::memory::room::call_blocks;
use crate::plan::Fate;
use fdp_base::{Bytes, Spot};
use std::alloc::{AllocError, Global};

/// A call on the list of a flash in memory.
#[derive(Debug, Drop)]
pub struct Recorded {
    pub operation: Operation,
    /// The page, or page 0 of the unit that was erased.
    pub at: Spot,
    pub fate: Fate,
    /// What was to be programmed; of other calls these say nothing.
    pub spare: [u8; 32],
    pub bytes: Bytes,
}

/// The list of the calls, and a block for each call that it still has room for.
#[derive(Debug, Drop)]
pub struct CallList {
    pub calls: Vec<Recorded>,
    pub blocks: Vec<Bytes>,
}

impl CallList {
    /// An empty list with the room for so many calls.
    pub fn with_room(alloc: Global, count: usize, size: usize) -> Result<CallList, AllocError>
        ensures empty { IfOk result (λ list. list.calls.items ≡ []) }
        ensures room { IfOk result (λ list. count ≤ vec_capacity list.calls) }
        ensures count { IfOk result (λ list. length list.blocks.items ≡ count) }
        ensures size { IfOk result (λ list. AllOfSize size list.blocks.items) }
    {
        let calls = Vec::with_capacity(alloc, count)?;
        let blocks = call_blocks(alloc, count, size)?;
        Ok(CallList { calls, blocks })
    }

    /// Notes a call, where there is room for one more.
    pub fn note(
        &mut self,
        operation: Operation,
        at: Spot,
        fate: Fate,
        spare: &[u8; 32],
        bytes: &[u8],
    )
        requires room { length self.old.calls.items + length self.old.blocks.items ≤ vec_capacity self.old.calls }
        requires size { operation ≡ Operation.Program → AllOfSize (length bytes.now) self.old.blocks.items }
        ensures noted { Notes self.old.calls.items self.new.calls.items self.old.blocks.items self.new.blocks.items operation at fate spare.now bytes.now }
        ensures capacity { vec_capacity self.new.calls ≡ vec_capacity self.old.calls }
    {
        let Some(block) = self.blocks.pop() else {
            return;
        };
        let bytes = if operation == Operation::Program {
            copied(block, bytes)
        } else {
            block
        };
        self.calls.push_reserved(Recorded {
            operation,
            at,
            fate,
            spare: *spare,
            bytes,
        });
    }
}

/// The block with these bytes in it.
pub fn copied(block: Bytes, bytes: &[u8]) -> Bytes
    requires { length block ≡ length bytes.now }
    ensures { result ≡ bytes.now }
{
    let mut block = block.into_vec();
    block.as_mut_slice().copy_from_slice(bytes);
    Bytes::from_vec(block)
}
