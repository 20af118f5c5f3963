ghost use Rattle.std.specs.Prelude.{◌≡◌, IfOk, OnErr};
ghost use Rattle.std.specs.List.{sum_by};
ghost use Rattle.fdp_base.specs.CommandKinds.{blocks_read};
ghost use Rattle.fdp_base.specs.Geometry.{IsBlockSize};
ghost use Rattle.fdp_binary.specs.Reader.{IsLonger, Reaches};
ghost use Rattle.fdp_binary.specs.Streams.{AreFew};

use crate::fault::StreamFaultKind;
use crate::front::FRONT;
use crate::next::{Next, next_frame};
use fdp_base::Command;
use std::alloc::{AllocError, Global};

/// How far frames were read: so many bytes of them, so many blocks that all commands read, and the fault of the frame
/// behind them, if it has one.
#[derive(Clone, Copy, Debug)]
pub struct Reached {
    pub done: usize,
    pub blocks: u64,
    pub fault: Option<StreamFaultKind>,
}

/// Puts the commands of all whole frames behind those that there are. It takes time that grows with the bytes.
pub fn read_frames(
    alloc: Global,
    block: u32,
    commands: &mut Vec<Command>,
    blocks: u64,
    bytes: &[u8],
) -> Result<Reached, AllocError>
    requires block { IsBlockSize block }
    requires counted { blocks ≡ sum_by blocks_read commands.old.items }
    requires few { AreFew commands.old.items }
    ensures ok { IfOk result (Reaches block commands.old.items commands.new.items bytes.now) }
    ensures err { OnErr result (IsLonger commands.old.items commands.new.items) }
{
    let mut done = 0;
    let mut blocks = blocks;
    'frames: loop {
        match next_frame(alloc, block, commands.as_slice(), blocks, &bytes[done..])? {
            Next::Short => {
                let fault = None;
                return Ok(Reached {
                    done,
                    blocks,
                    fault,
                });
            }
            Next::Bad(kind) => {
                let fault = Some(kind);
                return Ok(Reached {
                    done,
                    blocks,
                    fault,
                });
            }
            Next::Whole { command, len } => {
                blocks += u64::from(command.blocks_read());
                commands.push(command)?;
                done += FRONT + len;
            }
        }
    }
}
