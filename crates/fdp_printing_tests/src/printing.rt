use fdp_base::{
    BlockName, Command, Copied, Entry, Erased, Event, EventFlags, EventKind, Host, Moved, Payload,
    Placed, Read, Reply, Sequence, Shut, Spot, Started, Status, Totals, Write,
};
use fdp_drives::drive_s;
use fdp_io::SinkMem;
use fdp_printing::{Closing, Placement, print_output, print_record};
use std::alloc::{AllocError, Global};
use std::test::Fail;

mod entries;

#[test]
fn sums_may_exceed_64_bits(rt: HostRuntime) -> Result<(), Fail> {
    let alloc = rt.alloc();
    let config = drive_s(alloc)?;
    let mut sink = SinkMem::new(alloc, 1000, Vec::new(alloc))?;
    let closing = Closing {
        totals: Totals {
            position: 0,
            host_blocks: 1 << 62,
            media_blocks: 1,
            erases: 1 << 62,
        },
        placement: None,
    };
    assert!(rt; print_output(alloc, &config, &[], 2, &closing, &mut sink).is_ok());
    let text = b"queue 1\nqueue 2\nstats 2361183241434822606848 512 18889465931478580854784\n";
    assert!(rt; sink.bytes() == text.as_slice());
    Ok(())
}

/// The completion of a command of queue 1, with these bytes.
fn completed(
    alloc: Global,
    number: u16,
    command: Command,
    bytes: &[u8],
) -> Result<Entry, AllocError> {
    Ok(Entry::Host(Host {
        queue: 1,
        number,
        command,
        reply: Reply {
            status: Status::SUCCESS,
            dw0: 0,
            bytes: Sequence::from_vec(Vec::from_slice(alloc, bytes)?),
            applied: number == 0,
        },
        moment: 9,
    }))
}

fn write() -> Command {
    Command::Write(Write {
        nsid: 1,
        slba: 5,
        count: 1,
        dtype: 2,
        dspec: 3,
        payload: Payload::Pattern(7),
    })
}

/// A write that is placed, a read of it, and a pass of relocation.
fn history(alloc: Global) -> Result<Vec<Entry>, AllocError> {
    let mut entries = Vec::new(alloc);
    entries.push(Entry::Started(Started {
        queue: 1,
        number: 0,
        command: write(),
        rg: 0,
        ruh: 2,
        pid_valid: true,
    }))?;
    entries.push(Entry::Placed(Placed {
        ticket: 41,
        index: 0,
        unit: 4,
        page: 1,
    }))?;
    entries.push(completed(alloc, 0, write(), b"")?)?;
    let read = Read {
        nsid: 1,
        slba: 5,
        count: 1,
    };
    entries.push(completed(alloc, 1, Command::Read(read), &[7, 0, 0, 0, 7, 0, 0, 0])?)?;
    entries.push(Entry::Copied(Copied {
        from: Spot { unit: 4, page: 1 },
        to: Spot { unit: 6, page: 0 },
    }))?;
    let mut blocks = Vec::new(alloc);
    blocks.push(BlockName { nsid: 1, lba: 5 })?;
    blocks.push(BlockName { nsid: 2, lba: 0 })?;
    entries.push(Entry::Moved(Moved {
        rg: 0,
        blocks: Sequence::from_vec(blocks),
    }))?;
    entries.push(Entry::Erased(Erased { unit: 4 }))?;
    entries.push(Entry::Shut(Shut { rg: 0, ruh: 2 }))?;
    entries.push(Entry::Reopened)?;
    Ok(entries)
}

fn event(kind: EventKind, nsid_valid: bool) -> Event {
    Event {
        kind,
        flags: EventFlags {
            pid_valid: nsid_valid,
            nsid_valid,
            location_valid: true,
        },
        pid: 0x0a2f,
        position: 41,
        nsid: 1,
        moved: 2,
        lba: 5,
        rg: 0,
        ruh: 2,
    }
}

/// What is printed behind the completions of that history, whose entries follow position 40.
fn closing(alloc: Global) -> Result<Closing, AllocError> {
    let mut host_events = Vec::new(alloc);
    host_events.push(event(EventKind::InvalidPlacementIdentifier, true))?;
    let mut controller_events = Vec::new(alloc);
    controller_events.push(event(EventKind::ImplicitlyModified, false))?;
    Ok(Closing {
        totals: Totals {
            position: 49,
            host_blocks: 1,
            media_blocks: 2,
            erases: 1,
        },
        placement: Some(Placement {
            usages: Vec::from_slice(alloc, &[1, 0])?,
            host_events,
            controller_events,
        }),
    })
}

const RECORD: &[u8] = b"\
queue 1\n\
0 write 0/00 00000000\n\
1 read 0/00 00000000\n  00000007\n\
stats 512 1024 4096\n\
ruh 0 1\n\
ruh 1 0\n\
event host 03 07 0a2f 41 1 2 5 0 2\n\
event ctrl 81 04 0a2f 41 1 2 5 0 2\n\
41 started 1 0 0 2 1 write 1 5 1 7 pid 3\n\
42 placed 41 0 4 1\n\
43 host 1 0 1 0/00 00000000 9 write 1 5 1 7 pid 3\n\
44 host 1 1 0 0/00 00000000 9 read 1 5 1\n  00000007\n\
45 copied 4 1 6 0\n\
46 moved 0 1:5 2:0\n\
47 erased 4\n\
48 shut 0 2\n\
49 reopened\n";

#[test]
fn a_record_is_printed(rt: HostRuntime) -> Result<(), Fail> {
    let alloc = rt.alloc();
    let config = drive_s(alloc)?;
    let entries = history(alloc)?;
    let closing = closing(alloc)?;
    let mut sink = SinkMem::new(alloc, 1000, Vec::new(alloc))?;
    assert!(rt; print_record(alloc, &config, &entries, 1, &closing, &mut sink).is_ok());
    assert!(rt; sink.bytes() == RECORD);
    Ok(())
}
