//! The lines of a table.
//!
//! - `COMMAND -> ANSWER`: the command was completed so.
//! - `WRITE at UNIT.PAGE .. -> ANSWER`: the write was started, each of its pages placed, and it was completed so. Pages in a row
//!   are `UNIT.FIRST-LAST`.
//! - `start COMMAND`: it was started.
//! - `placed TICKET INDEX UNIT PAGE`, `copied UNIT.PAGE UNIT.PAGE`, `moved GROUP NSID.LBA ..`, `erased UNIT`, `retired UNIT`,
//!   `aside UNIT`, `shut GROUP HANDLE`, `worn GROUP`, `reopened`.
//!
//! A command is completed in queue 1 with number 1, or in another where `qN` stands before it, with another where `nN` does. A
//! write goes to group 0 and handle 0; behind it `to GROUP HANDLE` says another place, and `invalid` behind that that its
//! placement identifier is invalid.
use crate::answers::answer_of;
use crate::commands::command_of;
use crate::own::own_entry;
use crate::words::Words;
use fdp_base::{Command, Entry, Host, Placed, Started};
use std::alloc::{AllocError, Global};

/// The entries of a line, the first of which is to have this position; nothing where the line is none of a table.
pub fn entries_of(
    alloc: Global,
    position: u64,
    line: &str,
) -> Result<Option<Vec<Entry>>, AllocError> {
    let mut words = Words::of(line);
    let mut entries = Vec::new(alloc);
    if words.takes("start") {
        entries.push(started(alloc, &mut words)?)?;
    } else if line.contains(" -> ") {
        completed(alloc, position, &mut words, &mut entries)?;
    } else {
        entries.push(own_entry(alloc, &mut words)?)?;
    }
    Ok(if words.is_sound() {
        Some(entries)
    } else {
        None
    })
}

/// A command with its queue and its number, where it goes, and whether its placement identifier is valid.
#[derive(Drop)]
struct Asked {
    queue: u8,
    number: u16,
    command: Command,
    rg: u16,
    ruh: u8,
    pid_valid: bool,
}

fn asked_in(alloc: Global, words: &mut Words) -> Result<Asked, AllocError> {
    let (queue, number) = (words.tagged("q"), words.tagged("n"));
    let command = command_of(alloc, words)?;
    let (rg, ruh) = place(words);
    Ok(Asked {
        queue: (queue % 256) as u8,
        number,
        command,
        rg,
        ruh,
        pid_valid: !words.takes("invalid"),
    })
}

fn place(words: &mut Words) -> (u16, u8) {
    if words.takes("to") {
        (words.number16(), words.number8())
    } else {
        (0, 0)
    }
}

/// The command was started.
fn started(alloc: Global, words: &mut Words) -> Result<Entry, AllocError> {
    let asked = asked_in(alloc, words)?;
    start_of(&asked)
}

fn start_of(asked: &Asked) -> Result<Entry, AllocError> {
    let command = asked.command.copied()?;
    Ok(Entry::Started(Started {
        queue: asked.queue,
        number: asked.number,
        command,
        rg: asked.rg,
        ruh: asked.ruh,
        pid_valid: asked.pid_valid,
    }))
}

/// The command was completed, and was started before where its pages are told.
fn completed(
    alloc: Global,
    position: u64,
    words: &mut Words,
    entries: &mut Vec<Entry>,
) -> Result<(), AllocError> {
    let asked = asked_in(alloc, words)?;
    if words.takes("at") {
        entries.push(start_of(&asked)?)?;
        add_pages(position, words, entries)?;
    }
    if !words.takes("->") {
        words.refuse();
    }
    entries.push(host(alloc, asked, words)?)?;
    Ok(())
}

fn host(alloc: Global, asked: Asked, words: &mut Words) -> Result<Entry, AllocError> {
    let (reply, moment) = answer_of(alloc, words)?;
    Ok(Entry::Host(Host {
        queue: asked.queue,
        number: asked.number,
        command: asked.command,
        reply,
        moment,
    }))
}

/// The pages of a write were placed, in this order.
fn add_pages(ticket: u64, words: &mut Words, entries: &mut Vec<Entry>) -> Result<(), AllocError> {
    let mut first = Placed {
        ticket,
        index: 0,
        unit: 0,
        page: 0,
    };
    for _ in 0..words.most() {
        if words.has_more() {
            let (unit, run) = words.halves('.');
            let (page, last) = run.split_once('-').unwrap_or((run, run));
            first.unit = words.number_in(unit, 0xffff_ffff) as u32;
            first.page = words.number_in(page, 0xffff_ffff) as u32;
            let last = words.number_in(last, 0xffff_ffff) as u32;
            first.index = add_run(first, last, entries)?;
        }
    }
    Ok(())
}

/// Pages of one unit were placed, the first as told; the index behind the last.
fn add_run(first: Placed, last: u32, entries: &mut Vec<Entry>) -> Result<u32, AllocError> {
    let mut next = first;
    for page in first.page..=last {
        next.page = page;
        entries.push(Entry::Placed(next))?;
        next.index = next.index.wrapping_add(1);
    }
    Ok(next.index)
}
