ghost use Rattle.fdp_base.specs.Numbers.{numbers_from};
ghost use Rattle.fdp_rules.specs.Answer.{dword0_of, read_block};
ghost use Rattle.fdp_rules.specs.Effect.{lowest_free};
ghost use Rattle.fdp_rules.specs.LogPages.{transfer_of};
ghost use Rattle.fdp_rules.specs.Room.{size_of};
ghost use Rattle.fdp_tables.specs.State.{plain_of};
ghost use Rattle.std.specs.Prelude.{◌≡◌, ◌+◌, ◌*◌, ◌<◌, ◌≤◌, ◌++◌, flat_map, OnOk, IfOk, unwrap_or};

use crate::bytes::push_zeros;
use fdp_base::{Command, MOST_DWORDS};
use fdp_tables::Standing;
use std::alloc::{AllocError, Global};

/// Dword 0 of a success.
pub fn dword0_of(kept: &Standing, command: &Command) -> u32
    ensures { result ≡ dword0_of (plain_of kept.now) command.now }
{
    match command {
        Command::GetFdp(_) => u32::from(kept.tables().enabled)
            + 256 * u32::from(kept.tables().index),
        Command::Create(_) => lowest_free_or_none(kept),
        Command::Write(_)
        | Command::Read(_)
        | Command::Zero(_)
        | Command::Dealloc(_)
        | Command::Flush(_)
        | Command::Delete(_)
        | Command::Status(_)
        | Command::Update(_)
        | Command::Log(_)
        | Command::SetFdp(_)
        | Command::SetEvents(_)
        | Command::Other(_) => 0,
    }
}

/// The lowest identifier that no namespace has, 0 where each has one.
fn lowest_free_or_none(kept: &Standing) -> u32
    ensures { result ≡ unwrap_or (lowest_free (plain_of kept.now)) 0 }
{
    match kept.lowest_free() {
        Some(nsid) => nsid,
        None => 0,
    }
}

/// The bytes that a read of these blocks gives.
pub(crate) fn bytes_read(
    kept: &Standing,
    alloc: Global,
    nsid: u32,
    slba: u64,
    count: u32,
) -> Result<Vec<u8>, AllocError>
    requires { slba + count ≤ size_of (plain_of kept.now) nsid }
    ensures { IfOk result (λ bytes. bytes.items ≡ flat_map (read_block kept.now.config (plain_of kept.now) nsid) (numbers_from slba count)) }
{
    let _size = kept.size_of(nsid); // proof: a number of its kind says how many blocks there are
    let mut bytes = Vec::new(alloc);
    for lba in slba..slba + u64::from(count) {
        push_block(kept, &mut bytes, nsid, lba)?;
    }
    Ok(bytes)
}

/// Appends what a block reads as.
fn push_block(kept: &Standing, bytes: &mut Vec<u8>, nsid: u32, lba: u64) -> Result<(), AllocError>
    ensures { OnOk result (bytes.new.items ≡ bytes.old.items ++ read_block kept.now.config (plain_of kept.now) nsid lba) }
{
    match kept.block(nsid, lba) {
        Some(block) => bytes.extend_from_slice(block.bytes.as_slice()),
        None => push_zeros(bytes, kept.config().block),
    }
}

/// So many dwords of a log from an offset on; bytes past its end are zero.
pub(crate) fn transfer(
    alloc: Global,
    offset: u64,
    dwords: u32,
    log: &[u8],
) -> Result<Vec<u8>, AllocError>
    requires { dwords ≤ MOST_DWORDS }
    ensures { IfOk result (λ bytes. bytes.items ≡ transfer_of offset dwords log.now) }
{
    let mut bytes = Vec::new(alloc);
    let start = offset.min(log.len() as u64) as usize;
    bytes.extend_from_slice(&log[start..])?;
    push_zeros(&mut bytes, 4 * dwords)?;
    bytes.truncate(4 * dwords as usize);
    Ok(bytes)
}
