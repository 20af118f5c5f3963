//! The entry with which a text begins.

ghost use Rattle.std.specs.Prelude.{◌≡◌, IfOk};
ghost use Rattle.fdp_prints.specs.Reader.{first_entry, reply_in, told_bytes, with_bytes};
ghost use Rattle.fdp_reader.specs.Yielding.{Yields};

use crate::cut::{after, before};
use crate::data::reply_bytes;
use crate::entry::placed_entry;
use fdp_base::{Bytes, Command, DriveConfig, Entry, Host, Reply};
use fdp_trace::LineError;
use std::alloc::{AllocError, Global};

/// The position and the entry of the first line of a text, and behind it so many lines of data as its command and its status ask for. Whether
/// they are just the lines that are printed of it is not looked at. Where no line says its command, it is the one that is given.
#[tactic(auto, unfolding(fdp_prints::specs::Reader::first_entry))]
pub fn read_first(
    alloc: Global,
    config: &DriveConfig,
    text: &[u8],
    given: Option<Command>,
) -> Result<(u64, Entry), LineError>
    ensures { Yields result (first_entry given config.now text.now) }
{
    let (position, entry) = placed_entry(alloc, before(text, b'\n'), given)?;
    let whole = with_reply(alloc, config, entry, after(text, b'\n'))?;
    Ok((position, whole))
}

/// The entry with the bytes of its reply.
fn with_reply(
    alloc: Global,
    config: &DriveConfig,
    entry: Entry,
    text: &[u8],
) -> Result<Entry, AllocError>
    ensures { IfOk result (λ whole. whole ≡ with_bytes (told_bytes config.now entry text.now) entry) }
{
    match entry {
        Entry::Host(host) => {
            let whole = host_with_reply(alloc, config, host, text)?;
            Ok(Entry::Host(whole))
        }
        Entry::Started(started) => Ok(Entry::Started(started)),
        Entry::Placed(placed) => Ok(Entry::Placed(placed)),
        Entry::Copied(copied) => Ok(Entry::Copied(copied)),
        Entry::Moved(moved) => Ok(Entry::Moved(moved)),
        Entry::Erased(erased) => Ok(Entry::Erased(erased)),
        Entry::Retired(retired) => Ok(Entry::Retired(retired)),
        Entry::Aside(aside) => Ok(Entry::Aside(aside)),
        Entry::Shut(shut) => Ok(Entry::Shut(shut)),
        Entry::Worn(worn) => Ok(Entry::Worn(worn)),
        Entry::Reopened => Ok(Entry::Reopened),
    }
}

fn host_with_reply(
    alloc: Global,
    config: &DriveConfig,
    host: Host,
    text: &[u8],
) -> Result<Host, AllocError>
    ensures { IfOk result (λ whole. whole ≡ record host { reply = record host.reply { bytes = reply_in config.now host.command host.reply.status text.now } }) }
{
    let bytes = reply_bytes(alloc, config, &host.command, host.reply.status, text)?;
    Ok(Host {
        queue: host.queue,
        number: host.number,
        command: host.command,
        reply: Reply {
            status: host.reply.status,
            dw0: host.reply.dw0,
            bytes: Bytes::from_vec(bytes),
            applied: host.reply.applied,
        },
        moment: host.moment,
    })
}
