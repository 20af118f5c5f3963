//! The last applied write of each queue to each block.

ghost use Rattle.std.specs.Prelude.{◌≡◌, ◌<◌, ◌++◌, ◌∷◌, [], ◌==◌, ◌&&◌, List, OnOk, OnErr, Some, true, if◌then◌else◌, ℕ};
ghost use Rattle.std.specs.Option.{option_or};
ghost use Rattle.fdp_base.specs.declared.entry.Entry.{Entry};
ghost use Rattle.fdp_base.specs.CommandKinds.{blocks_written};
ghost use Rattle.fdp_rules.specs.Totals.{host_blocks_of};
ghost use Rattle.fdp_make.specs.Summary.{covers, write_made};
ghost use Rattle.fdp_make.specs.Table.{Tells, write_for};

use fdp_base::{Entry, Host, Write};
use std::alloc::AllocError;
use std::collections::BTreeMap;

/// The address of a block, a namespace, and a queue: the address comes first, since it tells most places apart at once. Behind the last address of 64 bits
/// there is no block, but a command may ask for one.
pub type Place = (u128, u32, u8);

/// The last applied write of each queue to each block.
pub type LastWrites<'a> = BTreeMap<Place, &'a Write>;

/// Takes in one entry more: where it completes a write whose change was made, that is the last one to its blocks.
/// For another entry it takes no memory.
pub fn note<'a>(entry: &'a Entry, writes: &mut LastWrites<'a>) -> Result<(), AllocError>
    ensures tells { OnOk result ((es : List Entry) → Tells writes.old es → Tells writes.new (es ++ entry.now ∷ [])) }
    ensures memory { OnErr result (0 < host_blocks_of entry.now) }
{
    match entry.as_host() {
        Some(host) => note_host(host, writes),
        None => Ok(()),
    }
}

fn note_host<'a>(host: &'a Host, writes: &mut LastWrites<'a>) -> Result<(), AllocError>
    ensures tells { OnOk result ((queue nsid lba : ℕ) → write_for writes.new queue nsid lba ≡ option_or (write_made queue nsid lba host.now) (write_for writes.old queue nsid lba)) }
    ensures memory { OnErr result ((host.now.reply.applied ≡ true) × (0 < blocks_written host.now.command)) }
{
    match host.command.as_write() {
        Some(write) if host.reply.applied => note_write(host.queue, write, writes),
        _ => Ok(()),
    }
}

fn note_write<'a>(
    number: u8,
    write: &'a Write,
    writes: &mut LastWrites<'a>,
) -> Result<(), AllocError>
    ensures tells { OnOk result ((queue nsid lba : ℕ) → write_for writes.new queue nsid lba
        ≡ (if number == queue && covers nsid lba write.now then Some write.now else write_for writes.old queue nsid lba)) }
    ensures memory { OnErr result (0 < write.now.count) }
{
    for index in 0..write.count {
        let lba = u128::from(write.slba) + u128::from(index);
        writes.insert((lba, write.nsid, number), write)?;
    }
    Ok(())
}
