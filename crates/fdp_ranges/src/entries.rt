//! The numbers of entries, looked at one by one. Nothing comes of it but what is known of them.

ghost use Rattle.std.specs.Prelude.{All};
ghost use Rattle.std.specs.List.{AllByRecursion};
ghost use Rattle.fdp_prints.specs.Told.{AreBytes, IsToldName, IsToldSpot};
ghost use Rattle.fdp_ranges.specs.Ranged.{IsRanged, IsRangedHost, IsRangedStart};

use crate::bits::{have_bytes, is_byte, is_long, is_short, is_word};
use crate::commands::is_command;
use fdp_base::{BlockName, Entry, Host, Spot, Started};

/// Each number of these entries is one of its type.
pub fn are_ranged(entries: &[Entry])
    ensures { All IsRanged entries.now }
{
    for entry in entries {
        is_ranged(entry);
    }
}

fn is_ranged(entry: &Entry)
    ensures { IsRanged entry.now }
{
    match entry {
        Entry::Host(host) => is_host(host),
        Entry::Started(started) => is_start(started),
        Entry::Placed(placed) => {
            is_long(placed.ticket);
            is_word(placed.index);
            is_word(placed.unit);
            is_word(placed.page);
        }
        Entry::Copied(copied) => {
            is_spot(copied.from);
            is_spot(copied.to);
        }
        Entry::Moved(moved) => {
            is_short(moved.rg);
            are_blocks(moved.blocks.as_slice());
        }
        Entry::Erased(erased) => is_word(erased.unit),
        Entry::Retired(retired) => is_word(retired.unit),
        Entry::Aside(aside) => is_word(aside.unit),
        Entry::Shut(shut) => {
            is_short(shut.rg);
            is_byte(shut.ruh);
        }
        Entry::Worn(worn) => is_short(worn.rg),
        Entry::Reopened => {}
    }
}

fn is_host(host: &Host)
    ensures { IsRangedHost host.now }
{
    is_byte(host.queue);
    is_short(host.number);
    is_long(host.moment);
    is_byte(host.reply.status.sct);
    is_byte(host.reply.status.sc);
    is_word(host.reply.dw0);
    are_bytes(host.reply.bytes.as_slice());
    is_command(&host.command);
}

fn is_start(started: &Started)
    ensures { IsRangedStart started.now }
{
    is_byte(started.queue);
    is_short(started.number);
    is_short(started.rg);
    is_byte(started.ruh);
    is_command(&started.command);
}

fn is_spot(spot: Spot)
    ensures { IsToldSpot spot }
{
    is_word(spot.unit);
    is_word(spot.page);
}

fn are_bytes(bytes: &[u8])
    ensures { AreBytes bytes.now }
{
    have_bytes(bytes);
}

fn are_blocks(blocks: &[BlockName])
    ensures { AllByRecursion IsToldName blocks.now }
{
    for block in blocks {
        is_block(*block);
    }
}

fn is_block(block: BlockName)
    ensures { IsToldName block }
{
    is_word(block.nsid);
    is_long(block.lba);
}
