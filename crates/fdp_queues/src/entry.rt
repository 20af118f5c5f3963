//! The entries of commands (NVM Express Base Specification 2.1 and NVM Command Set Specification, "Command Dword"
//! fields of each command). Counts are zero-based but that of Set Features, Flexible Data Placement Events.
//!
//! | Command | Opcode | CDW10 | CDW11 | CDW12 | CDW13 |
//! |---|---|---|---|---|---|
//! | flush | I/O 00h | | | | |
//! | write | I/O 01h | SLBA low | SLBA high | NLB 15:0, DTYPE 23:20 | DSPEC 31:16 |
//! | read, zero | I/O 02h, 08h | SLBA low | SLBA high | NLB 15:0 | |
//! | dealloc | I/O 09h | ranges 7:0 | AD bit 2 | | |
//! | status | I/O 12h | MO 7:0 | dwords | | |
//! | update | I/O 1Dh | MO 7:0, identifiers 31:16 | | | |
//! | log | admin 02h | LID 7:0, LSP 14:8, NUMDL 31:16 | NUMDU 15:0, group 31:16 | offset low | offset high |
//! | set-fdp | admin 09h | 1Dh | group 15:0 | enable bit 0, index 15:8 | |
//! | get-fdp | admin 0Ah | 1Dh | group 15:0 | | |
//! | set-events | admin 09h | 1Eh | handle 15:0, types 23:16 | enable bit 0 | |
//! | create, delete | admin 0Dh | 0, 1 | | | |

ghost use Rattle.std.specs.Prelude.{◌≡◌, ℕ, ◌+◌, ◌*◌, ◌%◌, ◌/◌, ◌^◌, ◌<◌};
ghost use Rattle.fdp_base.specs.Codes.{feature_code};
ghost use Rattle.fdp_queues.specs.Entry.{words_of, entry_of, work_of, flags_of, io, admin, zero_based, low, high};

use crate::work::Work;
use fdp_base::{
    AdminOpcode, Command, Dealloc, Feature, GetLog, HandleUpdate, IoOpcode, SetEvents, SetFdp,
    Write,
};
use fdp_layouts::{EntryFlags, Fuse, Psdt, Sqe};

/// What a command puts into its entry.
#[derive(Clone, Copy, Debug, PartialEq, Eq)]
pub struct Words {
    admin: bool,
    opcode: u8,
    flags: u8,
    nsid: u32,
    cdw10: u32,
    cdw11: u32,
    cdw12: u32,
    cdw13: u32,
}

/// The entry of a command with this identifier. A value that does not fit its field loses its high bits.
pub fn work_of(command: &Command, cid: u16) -> Work
    ensures { result ≡ work_of command.now cid }
{
    let words = words_of(command);
    Work {
        admin: words.admin,
        sqe: entry_of(&words, cid),
    }
}

fn entry_of(words: &Words, cid: u16) -> Sqe
    ensures { result ≡ entry_of words.now cid }
{
    Sqe {
        opcode: words.opcode,
        flags: flags_of(words.flags),
        cid,
        nsid: words.nsid,
        cdw2: 0,
        cdw3: 0,
        mptr: 0,
        dptr: [0; 16],
        cdw10: words.cdw10,
        cdw11: words.cdw11,
        cdw12: words.cdw12,
        cdw13: words.cdw13,
        cdw14: 0,
        cdw15: 0,
    }
}

fn flags_of(byte: u8) -> EntryFlags
    ensures { result ≡ flags_of byte }
{
    let fuse = match byte % 4 {
        0 => Fuse::Normal,
        1 => Fuse::First,
        2 => Fuse::Second,
        _ => Fuse::Reserved,
    };
    let psdt = match byte / 64 {
        0 => Psdt::Prp,
        1 => Psdt::SglMetadataBuffer,
        2 => Psdt::SglMetadataSegment,
        _ => Psdt::Reserved,
    };
    EntryFlags { fuse, psdt }
}

fn words_of(command: &Command) -> Words
    ensures { result ≡ words_of command.now }
{
    match command {
        Command::Flush(flush) => io(IoOpcode::Flush, flush.nsid, 0, 0, 0, 0),
        Command::Write(write) => words_of_write(write),
        Command::Read(read) => io(
            IoOpcode::Read,
            read.nsid,
            low(read.slba),
            high(read.slba),
            blocks(read.count),
            0,
        ),
        Command::Zero(zero) => io(
            IoOpcode::WriteZeroes,
            zero.nsid,
            low(zero.slba),
            high(zero.slba),
            blocks(zero.count),
            0,
        ),
        Command::Dealloc(dealloc) => words_of_dealloc(dealloc),
        Command::Status(status) => io(
            IoOpcode::IoManagementReceive,
            status.nsid,
            u32::from(status.mo),
            last(status.dwords),
            0,
            0,
        ),
        Command::Update(update) => words_of_update(update),
        Command::Log(log) => words_of_log(log),
        Command::SetFdp(set) => words_of_set_fdp(set),
        Command::GetFdp(get) => {
            let fid = feature(Feature::DataPlacement);
            admin(AdminOpcode::GetFeatures, 0, fid, u32::from(get.group), 0, 0)
        }
        Command::SetEvents(set) => words_of_set_events(set),
        Command::Create(_) => admin(AdminOpcode::NamespaceManagement, 0, 0, 0, 0, 0),
        Command::Delete(delete) => admin(AdminOpcode::NamespaceManagement, delete.nsid, 1, 0, 0, 0),
        Command::Other(other) => Words {
            admin: other.admin,
            opcode: other.opcode,
            flags: other.flags,
            nsid: 0,
            cdw10: u32::from(other.feature),
            cdw11: 0,
            cdw12: 0,
            cdw13: 0,
        },
    }
}

fn words_of_write(write: &Write) -> Words
    ensures { result ≡ words_of (Command.Write write.now) }
{
    let cdw12 = blocks(write.count) + (u32::from(write.dtype % 16) << 20);
    let cdw13 = halves(0, write.dspec);
    io(
        IoOpcode::Write,
        write.nsid,
        low(write.slba),
        high(write.slba),
        cdw12,
        cdw13,
    )
}

fn words_of_dealloc(dealloc: &Dealloc) -> Words
    ensures { result ≡ words_of (Command.Dealloc dealloc.now) }
{
    let count = (dealloc.ranges.as_slice().len() % 256 + 255) % 256;
    let cdw11 = 4 * u32::from(dealloc.deallocate);
    io(
        IoOpcode::DatasetManagement,
        dealloc.nsid,
        count as u32,
        cdw11,
        0,
        0,
    )
}

fn words_of_update(update: &HandleUpdate) -> Words
    ensures { result ≡ words_of (Command.Update update.now) }
{
    let count = (update.pids.as_slice().len() % 0x1_0000 + 0xffff) % 0x1_0000;
    let cdw10 = halves(u16::from(update.mo), count as u16);
    io(IoOpcode::IoManagementSend, update.nsid, cdw10, 0, 0, 0)
}

fn words_of_log(log: &GetLog) -> Words
    ensures { result ≡ words_of (Command.Log log.now) }
{
    let count = last(log.dwords);
    let cdw10 = u32::from(log.lid) + (u32::from(log.lsp % 128) << 8) + ((count % 0x1_0000) << 16);
    let cdw11 = (count >> 16) + (u32::from(log.group) << 16);
    admin(
        AdminOpcode::GetLogPage,
        0,
        cdw10,
        cdw11,
        low(log.offset),
        high(log.offset),
    )
}

fn words_of_set_fdp(set: &SetFdp) -> Words
    ensures { result ≡ words_of (Command.SetFdp set.now) }
{
    let fid = feature(Feature::DataPlacement);
    let cdw12 = u32::from(set.enable) + (u32::from(set.index) << 8);
    admin(
        AdminOpcode::SetFeatures,
        0,
        fid,
        u32::from(set.group),
        cdw12,
        0,
    )
}

fn words_of_set_events(set: &SetEvents) -> Words
    ensures { result ≡ words_of (Command.SetEvents set.now) }
{
    let fid = feature(Feature::PlacementEvents);
    let count = set.types.as_slice().len() % 256;
    let cdw11 = halves(set.handle, count as u16);
    admin(
        AdminOpcode::SetFeatures,
        set.nsid,
        fid,
        cdw11,
        u32::from(set.enable),
        0,
    )
}

/// An entry of an I/O queue, with CDW10 to CDW13.
fn io(opcode: IoOpcode, nsid: u32, cdw10: u32, cdw11: u32, cdw12: u32, cdw13: u32) -> Words
    ensures { result ≡ io opcode nsid cdw10 cdw11 cdw12 cdw13 }
{
    Words {
        admin: false,
        opcode: opcode.code(),
        flags: 0,
        nsid,
        cdw10,
        cdw11,
        cdw12,
        cdw13,
    }
}

/// An entry of the admin queue, with CDW10 to CDW13.
fn admin(opcode: AdminOpcode, nsid: u32, cdw10: u32, cdw11: u32, cdw12: u32, cdw13: u32) -> Words
    ensures { result ≡ admin opcode nsid cdw10 cdw11 cdw12 cdw13 }
{
    Words {
        admin: true,
        opcode: opcode.code(),
        flags: 0,
        nsid,
        cdw10,
        cdw11,
        cdw12,
        cdw13,
    }
}

/// FID, the feature.
fn feature(feature: Feature) -> u32
    ensures { result ≡ feature_code feature }
{
    u32::from(feature.code())
}

/// The two halves of a word.
fn halves(low: u16, high: u16) -> u32
    ensures { result ≡ low + 2 ^ 16 * high }
{
    u32::from(low) + (u32::from(high) << 16)
}

/// A number of blocks, zero-based in 16 bits.
fn blocks(count: u32) -> u32
    ensures value { result ≡ zero_based 65536 count }
    ensures bits { result < 2 ^ 16 }
{
    (count % 0x1_0000 + 0xffff) % 0x1_0000
}

/// A number of dwords, zero-based in 32 bits.
fn last(dwords: u32) -> u32
    ensures { result ≡ zero_based 4294967296 dwords }
{
    if dwords == 0 { u32::MAX } else { dwords - 1 }
}

fn low(n: u64) -> u32
    ensures { result ≡ low n }
{
    (n % 0x1_0000_0000) as u32
}

fn high(n: u64) -> u32
    ensures { result ≡ high n }
{
    (n >> 32) as u32
}
