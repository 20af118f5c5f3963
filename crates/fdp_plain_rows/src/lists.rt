//! Commands that end in a list.
use crate::words::Words;
use fdp_base::{Command, Create, Dealloc, HandleUpdate, Range, Sequence, SetEvents};
use std::alloc::{AllocError, Global};

/// `NSID`, and behind it `SLBA LENGTH` for each range.
pub fn dataset(alloc: Global, deallocate: bool, words: &mut Words) -> Result<Command, AllocError> {
    let nsid = words.number32();
    let ranges = Sequence::from_vec(ranges(alloc, words)?);
    Ok(Command::Dealloc(Dealloc {
        nsid,
        deallocate,
        ranges,
    }))
}

fn ranges(alloc: Global, words: &mut Words) -> Result<Vec<Range>, AllocError> {
    let mut ranges = Vec::new(alloc);
    for _ in 0..words.most() {
        if words.has_more() {
            ranges.push(range(words))?;
        }
    }
    Ok(ranges)
}

fn range(words: &mut Words) -> Range {
    Range {
        slba: words.number(),
        length: words.number32(),
    }
}

/// `NSID`, and behind it placement identifiers.
pub fn update(alloc: Global, words: &mut Words) -> Result<Command, AllocError> {
    let nsid = words.number32();
    let pids = Sequence::from_vec(words.numbers16(alloc)?);
    Ok(Command::Update(HandleUpdate { nsid, mo: 1, pids }))
}

/// `NSID HANDLE on`, or `off`, and behind them event types.
pub fn set_events(alloc: Global, words: &mut Words) -> Result<Command, AllocError> {
    let (nsid, handle, enable) = (words.number32(), words.number16(), words.is_on());
    let types = Sequence::from_vec(words.bytes(alloc)?);
    Ok(Command::SetEvents(SetEvents {
        nsid,
        handle,
        enable,
        types,
    }))
}

/// `SIZE`, and behind it handles.
pub fn create(alloc: Global, words: &mut Words) -> Result<Command, AllocError> {
    let (size, given) = (words.number(), words.has_more());
    let list = Sequence::from_vec(words.numbers16(alloc)?);
    Ok(Command::Create(Create { size, given, list }))
}
