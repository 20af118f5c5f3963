//! Commands that no line of a trace spells: the digits are written by hand from the table of entries.

use super::*;
use fdp_base::{Create, Dealloc, GetLog, HandleUpdate, Other, Range, SetEvents};
use fdp_printing::push_entry;

/// Whether an entry at position 41, of a drive with blocks of 512 bytes, is printed so.
fn shows(alloc: Global, entry: &Entry, text: &[u8]) -> Result<bool, AllocError> {
    let mut printed = Vec::new(alloc);
    push_entry(512, 41, entry, &mut printed)?;
    Ok(printed.as_slice() == text)
}

/// The completion of a command that was refused.
fn refused(alloc: Global, command: Command) -> Entry {
    Entry::Host(Host {
        queue: 1,
        number: 0,
        command,
        reply: Reply {
            status: Status::INVALID_FIELD,
            dw0: 0,
            bytes: Sequence::new(alloc),
            applied: false,
        },
        moment: 9,
    })
}

fn write_of(dtype: u8, dspec: u16, payload: Payload) -> Command {
    Command::Write(Write {
        nsid: 1,
        slba: 5,
        count: 2,
        dtype,
        dspec,
        payload,
    })
}

const DIRECTED: &[u8] = b"\
41 host 1 0 0 0/02 00000000 9 entry 0 \
0100000001000000000000000000000000000000000000000000000000000000\
0000000000000000050000000000000001001000000009000000000000000000\n  \
00000007\n  00000008\n";

#[test]
fn a_write_with_another_directive(rt: HostRuntime) -> Result<(), Fail> {
    let alloc = rt.alloc();
    let entry = refused(alloc, write_of(1, 9, Payload::Pattern(7)));
    assert!(rt; shows(alloc, &entry, DIRECTED)?);
    Ok(())
}

const BYTES: &[u8] = b"\
41 started 1 0 0 2 0 entry 0 \
0100000001000000000000000000000000000000000000000000000000000000\
0000000000000000050000000000000001000000000000000000000000000000\n  \
abababab\n  0100000000000000\n";

#[test]
fn a_write_of_bytes(rt: HostRuntime) -> Result<(), Fail> {
    let alloc = rt.alloc();
    let blocks = [
        0xab, 0xab, 0xab, 0xab, 0xab, 0xab, 0xab, 0xab, 1, 0, 0, 0, 0, 0, 0, 0,
    ];
    let bytes = Sequence::from_vec(Vec::from_slice(alloc, &blocks)?);
    let entry = Entry::Started(Started {
        queue: 1,
        number: 0,
        command: write_of(0, 0, Payload::Bytes(bytes)),
        rg: 0,
        ruh: 2,
        pid_valid: false,
    });
    assert!(rt; shows(alloc, &entry, BYTES)?);
    Ok(())
}

const RANGES: &[u8] = b"\
41 host 1 0 0 0/02 00000000 9 entry 0 \
0900000001000000000000000000000000000000000000000000000000000000\
0000000000000000020000000000000000000000000000000000000000000000\n  \
0000000004000000030000000000000000000000010000000201000000000000\n  \
00000000020000000700000000000000\n";

#[test]
fn ranges_that_stay(rt: HostRuntime) -> Result<(), Fail> {
    let alloc = rt.alloc();
    let mut ranges = Vec::new(alloc);
    ranges.push(Range { slba: 3, length: 4 })?;
    ranges.push(Range {
        slba: 0x0102,
        length: 1,
    })?;
    ranges.push(Range { slba: 7, length: 2 })?;
    let dealloc = Dealloc {
        nsid: 1,
        deallocate: false,
        ranges: Sequence::from_vec(ranges),
    };
    assert!(rt; shows(alloc, &refused(alloc, Command::Dealloc(dealloc)), RANGES)?);
    Ok(())
}

const PIDS: &[u8] = b"\
41 host 1 0 0 0/02 00000000 9 entry 0 \
1d00000001000000000000000000000000000000000000000000000000000000\
0000000000000000020002000000000000000000000000000000000000000000\n  \
010003020180\n";

#[test]
fn identifiers_for_another_operation(rt: HostRuntime) -> Result<(), Fail> {
    let alloc = rt.alloc();
    let update = HandleUpdate {
        nsid: 1,
        mo: 2,
        pids: Sequence::from_vec(Vec::from_slice(alloc, &[1, 0x0203, 0x8001])?),
    };
    assert!(rt; shows(alloc, &refused(alloc, Command::Update(update)), PIDS)?);
    Ok(())
}

const TYPES: &[u8] = b"\
41 host 1 0 0 0/02 00000000 9 entry 1 \
0900000001000000000000000000000000000000000000000000000000000000\
00000000000000001e0000000300070001000000000000000000000000000000\n  \
00010203808105\n";

#[test]
fn seven_types_of_events(rt: HostRuntime) -> Result<(), Fail> {
    let alloc = rt.alloc();
    let events = SetEvents {
        nsid: 1,
        handle: 3,
        enable: true,
        types: Sequence::from_vec(Vec::from_slice(alloc, &[0, 1, 2, 3, 0x80, 0x81, 5])?),
    };
    assert!(rt; shows(alloc, &refused(alloc, Command::SetEvents(events)), TYPES)?);
    Ok(())
}

const UNSERVED: &[u8] = b"\
41 host 1 0 0 0/02 00000000 9 entry 0 \
0101000000000000000000000000000000000000000000000000000000000000\
0000000000000000000000000000000000000000000000000000000000000000\n";

const UNSERVED_ADMIN: &[u8] = b"\
41 host 1 0 0 0/02 00000000 9 entry 1 \
0900000000000000000000000000000000000000000000000000000000000000\
0000000000000000070000000000000000000000000000000000000000000000\n";

#[test]
fn commands_that_are_not_served(rt: HostRuntime) -> Result<(), Fail> {
    let alloc = rt.alloc();
    let fused = Other {
        admin: false,
        opcode: 1,
        flags: 1,
        feature: 0,
    };
    assert!(rt; shows(alloc, &refused(alloc, Command::Other(fused)), UNSERVED)?);
    let feature = Other {
        admin: true,
        opcode: 9,
        flags: 0,
        feature: 7,
    };
    assert!(rt;
        shows(
            alloc,
            &refused(alloc, Command::Other(feature)),
            UNSERVED_ADMIN
        )?
    );
    Ok(())
}

const OTHER_GROUP: &[u8] = b"\
41 host 1 0 0 0/02 00000000 9 entry 1 \
0200000000000000000000000000000000000000000000000000000000000000\
000000000000000020000f000000020004000000000000000000000000000000\n";

const OTHER_PARAMETER: &[u8] = b"\
41 host 1 1 0 0/00 00000000 9 entry 1 \
0200000000000000000000000000000000000000000000000000000000000000\
0000000000000000230301000000010000000000000000000000000000000000\n  \
0a0b0c0d00000000\n";

#[test]
fn logs_that_no_line_asks_for(rt: HostRuntime) -> Result<(), Fail> {
    let alloc = rt.alloc();
    let other = GetLog {
        lid: 0x20,
        lsp: 0,
        group: 2,
        offset: 4,
        dwords: 16,
    };
    assert!(rt; shows(alloc, &refused(alloc, Command::Log(other)), OTHER_GROUP)?);
    let served = GetLog {
        lid: 0x23,
        lsp: 3,
        group: 1,
        offset: 0,
        dwords: 2,
    };
    let answered = completed(
        alloc,
        1,
        Command::Log(served),
        &[10, 11, 12, 13, 0, 0, 0, 0],
    )?;
    assert!(rt; shows(alloc, &answered, OTHER_PARAMETER)?);
    Ok(())
}

const CREATE: &[u8] = b"\
41 host 1 0 0 0/02 00000000 9 entry 1 \
0d00000000000000000000000000000000000000000000000000000000000000\
0000000000000000000000000000000000000000000000000000000000000000\n";

#[test]
fn a_create_of_a_list_without_handles(rt: HostRuntime) -> Result<(), Fail> {
    let alloc = rt.alloc();
    let create = Create {
        size: 8,
        given: true,
        list: Sequence::new(alloc),
    };
    assert!(rt; shows(alloc, &refused(alloc, Command::Create(create)), CREATE)?);
    Ok(())
}
