//! The blocks that reads gave, against what their queues wrote there last.

ghost use Rattle.std.specs.Prelude.{◌≡◌, ◌*◌, ◌^◌, ◌<◌, List, drop, take};
ghost use Rattle.std.specs.Str.{bytes_eq};
ghost use Rattle.fdp_base.specs.declared.entry.Entry.{Entry};
ghost use Rattle.fdp_base.specs.Numbers.{count_below};
ghost use Rattle.fdp_base.specs.Pattern.{repeated};
ghost use Rattle.fdp_make.specs.Summary.{
  agreeing_in,
  agreeing_of,
  is_as_wanted,
  put_by,
  succeeds,
  untold,
};
ghost use Rattle.fdp_make.specs.Table.{Tells};

use crate::writes::LastWrites;
use fdp_base::{Entry, Host, Payload, Read, Status, Write};

/// Whether the status of a completion is Success.
pub fn succeeds(host: &Host) -> bool
    ensures { result ≡ succeeds host.now }
{
    host.reply.status == Status::SUCCESS
}

/// The blocks of a successful read that are what its queue wrote there last, or that it had not written.
pub fn agreeing(entry: &Entry, writes: &LastWrites<'_>, block: u32) -> u32
    ensures { (es : List Entry) → Tells writes.now es → result ≡ agreeing_of block untold es entry.now }
{
    match entry.as_host() {
        Some(host) => agreeing_in(host, writes, block),
        None => 0,
    }
}

fn agreeing_in(host: &Host, writes: &LastWrites<'_>, block: u32) -> u32
    ensures { (es : List Entry) → Tells writes.now es → result ≡ agreeing_in block untold es host.now }
{
    match host.command.as_read() {
        Some(read) if succeeds(host) => agreeing_blocks(host, read, writes, block),
        _ => 0,
    }
}

fn agreeing_blocks(host: &Host, read: &Read, writes: &LastWrites<'_>, block: u32) -> u32
    ensures { (es : List Entry) → Tells writes.now es → result ≡ count_below read.now.count (is_as_wanted block untold es host.now read.now) }
{
    let mut count = 0;
    for index in 0..read.count {
        count += u32::from(is_as_wanted(host, read, index, writes, block));
    }
    count
}

/// Whether block `index` of a read is what its queue wrote there last, or was not written by it.
fn is_as_wanted(host: &Host, read: &Read, index: u32, writes: &LastWrites<'_>, block: u32) -> bool
    ensures { (es : List Entry) → Tells writes.now es → result ≡ is_as_wanted block untold es host.now read.now index }
{
    let lba = u128::from(read.slba) + u128::from(index);
    let bytes = cut(host.reply.bytes.as_slice(), u128::from(index), block);
    match writes.get(&(lba, read.nsid, host.queue)) {
        Some(write) => is_put_by(write, lba, block, bytes),
        None => true,
    }
}

/// Whether a write put these bytes into this block of its own.
fn is_put_by(write: &Write, lba: u128, block: u32, bytes: &[u8]) -> bool
    requires { lba < 2 ^ 65 }
    ensures { result ≡ bytes_eq (put_by block lba write.now) bytes.now }
{
    let index = lba.saturating_sub(u128::from(write.slba));
    match &write.payload {
        Payload::Pattern(seed) => {
            let number = (u128::from(*seed) + index) % (1 << 32);
            is_repeated(&(number as u32).to_le_bytes(), block / 4, bytes)
        }
        Payload::Bytes(all) => cut(all.as_slice(), index, block) == bytes,
    }
}

/// Block `index` of these bytes; less, or nothing, where they end.
fn cut(bytes: &[u8], index: u128, block: u32) -> &[u8]
    requires { index < 2 ^ 65 }
    ensures { result.now ≡ take block (drop (index * block) bytes.now) }
{
    let start = (index * u128::from(block)).min(bytes.len() as u128) as usize;
    let rest = &bytes[start..];
    &rest[..rest.len().min(block as usize)]
}

/// Whether the bytes are a word so many times over: they begin with it, and are the same as themselves four bytes on, which is
/// compared many bytes at a time.
fn is_repeated(word: &[u8; 4], times: u32, bytes: &[u8]) -> bool
    ensures { result ≡ bytes_eq (repeated times word.now) bytes.now }
{
    if bytes.len() != 4 * times as usize {
        return false;
    }
    if times == 0 {
        return true;
    }
    is_same(&bytes[..4], word) && is_same(&bytes[4..], &bytes[..bytes.len() - 4])
}

fn is_same(left: &[u8], right: &[u8]) -> bool
    ensures { result ≡ bytes_eq left.now right.now }
{
    left == right
}
