ghost use Rattle.std.specs.Prelude.{◌≡◌, ℕ, [], ◌++◌, None, List, MatchResult, drop, length, ◌≤◌};
ghost use Rattle.fdp_base.specs.Geometry.{IsBlockSize};
ghost use Rattle.fdp_binary.specs.Streams.{IsBroken, IsStream};

use crate::fault::{FeedError, StreamFault, StreamFaultKind};
use crate::frames::read_frames;
use fdp_base::Command;
use std::alloc::{AllocError, Global};
use std::marker::Model;

/// Reads the commands of a stream that comes in pieces. It holds the commands so far, and the bytes behind the last whole
/// frame.
#[derive(Drop)]
pub struct StreamReader {
    block: u32,
    commands: Vec<Command>,
    blocks: u64,
    rest: Vec<u8>,
    at: u64,
    fault: Option<StreamFault>,
}

impl Model for StreamReader {
    ghost use Rattle.fdp_binary.specs.Reading.{Stream};

    ghost Value = { Stream };

    ghost use Rattle.fdp_binary.specs.Reading.{AreParts};

    ghost view = { λ r. record { block = r.block; commands = r.commands.items; rest = r.rest.items; at = r.at; fault = r.fault } };

    ghost invariant = { λ r. AreParts r.block r.commands.items r.blocks r.at };
}

impl StreamReader {
    ghost use Rattle.fdp_binary.specs.Reading.{HasRead, IsFed, IsWaiting};

    /// A reader that was fed nothing, for blocks of this size. It takes no memory yet.
    pub fn new(alloc: Global, block: u32) -> StreamReader
        requires { IsBlockSize block }
        ensures empty { result ≡ record { block = block; commands = []; rest = []; at = 0; fault = None } }
        ensures read { HasRead result [] }
    {
        StreamReader {
            block,
            commands: Vec::new(alloc),
            blocks: 0,
            rest: Vec::new(alloc),
            at: 0,
            fault: None,
        }
    }

    /// Takes a piece of the stream. A fault stands from then on. Where memory runs out, all is as it was. It takes time
    /// that grows with the piece and with the frames that it completes.
    pub fn feed(&mut self, alloc: Global, piece: &[u8]) -> Result<(), FeedError>
        ensures { (bytes : List ℕ) → HasRead self.old bytes → IsFed self.old self.new (bytes ++ piece.now) result }
    {
        match self.fault {
            Some(fault) => Err(FeedError::Fault(fault)),
            None => self.take_piece(alloc, piece),
        }
    }

    /// Takes a piece where there is no fault so far.
    fn take_piece(&mut self, alloc: Global, piece: &[u8]) -> Result<(), FeedError>
        requires { self.old.fault ≡ None }
        ensures { (bytes : List ℕ) → IsWaiting self.old bytes → IsFed self.old self.new (bytes ++ piece.now) result }
    {
        let kept = self.rest.len();
        if let Err(AllocError) = self.rest.extend_from_slice(piece) {
            return Err(FeedError::NoMemory);
        }
        let before = self.commands.len();
        let read = read_frames(
            alloc,
            self.block,
            &mut self.commands,
            self.blocks,
            self.rest.as_slice(),
        );
        match read {
            Err(AllocError) => {
                self.rest.truncate(kept);
                self.commands.truncate(before);
                Err(FeedError::NoMemory)
            }
            Ok(reached) => {
                self.blocks = reached.blocks;
                self.at += reached.done as u64;
                drop_front(&mut self.rest, reached.done);
                match reached.fault {
                    None => Ok(()),
                    Some(kind) => {
                        let fault = StreamFault { at: self.at, kind };
                        self.fault = Some(fault);
                        Err(FeedError::Fault(fault))
                    }
                }
            }
        }
    }

    /// The commands of the stream, or its fault.
    pub fn finish(self) -> Result<Vec<Command>, StreamFault>
        ensures { (bytes : List ℕ) → HasRead self bytes → MatchResult result
            (λ commands. IsStream self.block bytes commands.items)
            (IsBroken self.block bytes) }
    {
        let StreamReader {
            block: _,
            commands,
            blocks: _,
            rest,
            at,
            fault,
        } = self;
        if let Some(fault) = fault {
            return Err(fault);
        }
        if rest.is_empty() {
            return Ok(commands);
        }
        let kind = StreamFaultKind::Cut;
        Err(StreamFault { at, kind })
    }
}

/// Takes so many bytes from the front.
fn drop_front(bytes: &mut Vec<u8>, count: usize)
    requires { count ≤ length bytes.old.items }
    ensures { bytes.new.items ≡ drop count bytes.old.items }
{
    let left = bytes.len() - count;
    bytes.copy_within(count.., 0);
    bytes.truncate(left);
}
