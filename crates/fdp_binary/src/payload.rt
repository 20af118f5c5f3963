//! The payload of a write: a pattern, where its bytes are one.

ghost use Rattle.std.specs.Prelude.{◌≡◌, ◌*◌, ◌%◌, ◌^◌, ◌<◌, ◌≤◌, ℕ, ◌++◌, IfOk, MatchBool, MatchOption, OnErr, OnOk, length};
ghost use Rattle.fdp_base.specs.Geometry.{IsBlockSize};
ghost use Rattle.fdp_base.specs.Pattern.{pattern_block};
ghost use Rattle.fdp_queues.specs.Data.{pattern};
ghost use Rattle.fdp_binary.specs.Carrying.{Extends};
ghost use Rattle.fdp_binary.specs.Saying.{IsPayload};

use fdp_base::{Bytes, Payload};
use std::alloc::{AllocError, Global};

/// Bytes of the largest block.
const LARGEST: usize = 4096;

/// What the data of a write are.
pub fn payload_of(alloc: Global, block: u32, count: u32, body: &[u8]) -> Result<Payload, AllocError>
    requires block { IsBlockSize block }
    requires some { 1 ≤ count }
    requires sized { length body.now ≡ count * block }
    ensures { IfOk result (λ payload. IsPayload block count body.now payload) }
{
    match pattern_of(block, count, body) {
        Some(seed) => Ok(Payload::Pattern(seed)),
        None => {
            let bytes = Vec::from_slice(alloc, body)?;
            Ok(Payload::Bytes(Bytes::from_vec(bytes)))
        }
    }
}

/// The seed of the pattern that the data are, if they are one.
pub fn pattern_of(block: u32, count: u32, body: &[u8]) -> Option<u32>
    requires block { IsBlockSize block }
    requires some { 1 ≤ count }
    requires sized { length body.now ≡ count * block }
    ensures { MatchOption result
        ((seed : ℕ) → seed < 2 ^ 32 → body.now ≡ pattern block count seed → ⊥)
        (λ seed. (seed < 2 ^ 32) × (body.now ≡ pattern block count seed)) }
{
    let mut word = [0; 4];
    word.copy_from_slice(&body[..4]);
    let seed = u32::from_le_bytes(word);
    if is_pattern(seed, block, count, body) {
        Some(seed)
    } else {
        None
    }
}

fn is_pattern(seed: u32, block: u32, count: u32, body: &[u8]) -> bool
    requires block { IsBlockSize block }
    requires sized { length body.now ≡ count * block }
    ensures { MatchBool result (body.now ≡ pattern block count seed) (body.now ≡ pattern block count seed → ⊥) }
{
    let size = block as usize;
    for index in 0..count {
        let start = index as usize * size;
        if !is_block(seed, index, &body[start..start + size]) {
            return false;
        }
    }
    true
}

/// Whether the bytes are one block of the pattern.
fn is_block(seed: u32, index: u32, bytes: &[u8]) -> bool
    requires { IsBlockSize (length bytes.now) }
    ensures { MatchBool result
        (bytes.now ≡ pattern_block (length bytes.now) seed index)
        (bytes.now ≡ pattern_block (length bytes.now) seed index → ⊥) }
{
    let mut made = [0; LARGEST];
    let block = &mut made[..bytes.len()];
    Payload::Pattern(seed).fill(index, block);
    &*block == bytes
}

/// Appends the blocks of a pattern.
pub fn push_pattern(seed: u32, count: u32, block: u32, into: &mut Vec<u8>) -> Result<(), AllocError>
    requires { IsBlockSize block }
    ensures ok { OnOk result (into.new.items ≡ into.old.items ++ pattern block count seed) }
    ensures err { OnErr result (Extends into.old.items into.new.items) }
{
    for index in 0..count {
        push_block(seed, index, block, into)?;
    }
    Ok(())
}

fn push_block(seed: u32, index: u32, block: u32, into: &mut Vec<u8>) -> Result<(), AllocError>
    requires { block % 4 ≡ 0 }
    ensures ok { OnOk result (into.new.items ≡ into.old.items ++ pattern_block block seed index) }
    ensures err { OnErr result (into.new.items ≡ into.old.items) }
{
    let start = into.len();
    into.resize(start + block as usize, 0)?;
    Payload::Pattern(seed).fill(index, &mut into[start..]);
    Ok(())
}
