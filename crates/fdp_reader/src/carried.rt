//! The data that a command itself carries, from the lines below the line of its entry.

ghost use Rattle.std.specs.Prelude.{◌≡◌, ◌*◌, ◌≤◌, ◌++◌, ℕ, IfOk, OnOk, length, replicate};
ghost use Rattle.fdp_base.specs.Geometry.{IsBlockSize};
ghost use Rattle.fdp_prints.specs.Reader.{data_read};
ghost use Rattle.fdp_reader.specs.Framing.{unlike};

use crate::data::{push_blocks, push_rows};
use fdp_binary::{Asked, data_in};
use fdp_layouts::Sqe;
use std::alloc::{AllocError, Global};

/// The data behind an entry of this kind. It takes memory for them.
pub fn read_data(
    alloc: Global,
    block: u32,
    asked: Option<Asked>,
    entry: &Sqe,
    text: &[u8],
) -> Result<Vec<u8>, AllocError>
    requires { IsBlockSize block }
    ensures { IfOk result (λ bytes. bytes.items ≡ data_read block asked entry.now text.now) }
{
    let mut bytes = Vec::new(alloc);
    match asked {
        Some(Asked::Write) => {
            let count = data_in(block, asked, entry) / block;
            push_blocks(block, count, text, &mut bytes)?;
        }
        Some(Asked::Dealloc) | Some(Asked::Update) | Some(Asked::SetEvents) => {
            push_rows(data_in(block, asked, entry) as usize, text, &mut bytes)?;
        }
        Some(Asked::Read)
        | Some(Asked::Zero)
        | Some(Asked::Flush)
        | Some(Asked::Status)
        | Some(Asked::Log)
        | Some(Asked::SetFdp)
        | Some(Asked::GetFdp)
        | Some(Asked::Create)
        | Some(Asked::Delete)
        | None => {}
    }
    Ok(bytes)
}

/// Puts a block that no pattern has in place of the last one.
pub fn make_unlike(block: u32, bytes: &mut Vec<u8>) -> Result<(), AllocError>
    requires sized { IsBlockSize block }
    requires some { block ≤ length bytes.old.items }
    ensures { OnOk result ((count : ℕ) → length bytes.old.items ≡ count * block → bytes.new.items ≡ unlike block count bytes.old.items) }
{
    let len = bytes.as_slice().len();
    bytes.truncate(len - block as usize);
    bytes.push(1)?;
    push_zeros(block as usize - 1, bytes)
}

/// Appends so many zero bytes.
fn push_zeros(count: usize, into: &mut Vec<u8>) -> Result<(), AllocError>
    ensures { OnOk result (into.new.items ≡ into.old.items ++ replicate count 0) }
{
    for _ in 0..count {
        into.push(0)?;
    }
    Ok(())
}
