use fdp_base::{Bytes, Command, Entry, Host, Payload, Read, Reply, Status, Write};
use fdp_make::{Summary, config, push_summary, summary_of, traces};
use std::alloc::{AllocError, Global};
use std::test::Fail;

/// The line of the summary of the history below.
const LINE: &[u8] = b"make 0009 commands 9 ok 9 hbmw 48 read 10 same 9\n";

/// Where command `k` of a trace, from 1, goes, and of a write its seed and its placement identifier.
fn told(traces: &[Vec<Command>], trace: usize, k: usize) -> (u64, u32, u16) {
    match traces.get(trace.saturating_sub(1)) {
        Some(commands) => told_of(commands.get(k)),
        None => (0, 0, 0),
    }
}

fn told_of(command: Option<&Command>) -> (u64, u32, u16) {
    let Some(command) = command else {
        return (0, 0, 0);
    };
    if let Some(read) = command.as_read() {
        return (read.slba, read.count, 0);
    }
    let Some(write) = command.as_write() else {
        return (0, 0, 0);
    };
    match &write.payload {
        Payload::Pattern(seed) => (write.slba, *seed, write.dspec),
        Payload::Bytes(_) => (0, 0, 0),
    }
}

#[test]
fn traces_are_those_computed_elsewhere(rt: HostRuntime) -> Result<(), Fail> {
    let alloc = rt.alloc();
    let traces = traces(alloc, 8192)?;
    assert!(rt; traces.len() == 4);
    assert!(rt; told(&traces, 1, 0) == (1376, 16_777_216, 0));
    assert!(rt; told(&traces, 1, 3) == (1640, 4, 0));
    assert!(rt; told(&traces, 2, 4) == (4216, 33_554_436, 32_769));
    assert!(rt; told(&traces, 3, 8190) == (7552, 50_339_838, 2));
    assert!(rt; told(&traces, 4, 1) == (10440, 67_108_865, 32_771));
    assert!(rt; told(&traces, 4, 8191) == (9408, 4, 0));
    assert!(rt; told(&traces, 4, 8192) == (0, 0, 0));
    Ok(())
}

/// A completion of a command that a queue gave, with these bytes.
fn completed(queue: u8, command: Command, bytes: Bytes, applied: bool) -> Entry {
    Entry::Host(Host {
        queue,
        number: 0,
        command,
        reply: Reply {
            status: Status::SUCCESS,
            dw0: 0,
            bytes,
            applied,
        },
        moment: 0,
    })
}

fn write(alloc: Global, queue: u8, slba: u64, seed: u32, applied: bool) -> Entry {
    let command = Command::Write(Write {
        nsid: 1,
        slba,
        count: 2,
        dtype: 0,
        dspec: 0,
        payload: Payload::Pattern(seed),
    });
    completed(queue, command, Bytes::new(alloc), applied)
}

/// A read of two blocks of eight bytes that were filled with these numbers.
fn read(alloc: Global, queue: u8, slba: u64, first: u8, second: u8) -> Result<Entry, AllocError> {
    let command = Command::Read(Read {
        nsid: 1,
        slba,
        count: 2,
    });
    let bytes = Bytes::from_vec(vec![in alloc;
        first, 0, 0, 0, first, 0, 0, 0, second, 0, 0, 0, second, 0, 0, 0,
    ]?);
    Ok(completed(queue, command, bytes, false))
}

#[test]
fn reads_are_held_against_the_last_write_of_their_queue(rt: HostRuntime) -> Result<(), Fail> {
    let alloc = rt.alloc();
    let mut entries = Vec::new(alloc);
    entries.push(write(alloc, 1, 0, 7, true))?;
    entries.push(read(alloc, 1, 0, 7, 8)?)?;
    entries.push(write(alloc, 1, 1, 20, true))?;
    entries.push(write(alloc, 1, 0, 40, false))?;
    entries.push(write(alloc, 2, 0, 60, true))?;
    entries.push(read(alloc, 1, 0, 7, 20)?)?;
    entries.push(read(alloc, 1, 0, 7, 8)?)?;
    entries.push(read(alloc, 1, 2, 21, 99)?)?;
    entries.push(read(alloc, 3, 0, 1, 2)?)?;
    let summary = summary_of(alloc, &entries, 8)?;
    let wanted = Summary {
        commands: 9,
        successes: 9,
        host_bytes: 48,
        read: 10,
        same: 9,
    };
    assert!(rt; summary == wanted);
    let mut line = Vec::new(alloc);
    push_summary("0009", &summary, &mut line)?;
    assert!(rt; line.as_slice() == LINE);
    Ok(())
}

#[test]
fn the_drive_has_a_configuration(rt: HostRuntime) -> Result<(), Fail> {
    let config = config(rt.alloc())?;
    assert!(rt; config.namespaces.as_slice()[0].blocks == 12_288);
    Ok(())
}
