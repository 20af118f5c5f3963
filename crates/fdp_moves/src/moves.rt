//! The moves of which rows are made, as words.
use crate::numbers::number_of;
use fdp_base::{Command, Payload, Read, Write};

/// What a move asks of a drive: a write of blocks with the numbers from a seed on, or a read.
#[derive(Clone, Copy)]
pub enum Asked {
    Write(Written),
    Read { nsid: u32, slba: u64, count: u32 },
}

/// A write.
#[derive(Clone, Copy)]
pub struct Written {
    pub nsid: u32,
    pub slba: u64,
    pub count: u32,
    pub dtype: u8,
    pub dspec: u16,
    pub seed: u32,
}

/// A step of a queue, all steps of a command, or a step of relocation in a group.
#[derive(Clone, Copy)]
pub enum Move {
    Start(u8, Asked),
    Place(u8),
    Commit(u8),
    Whole(u8, Asked),
    Collect(u16),
}

/// The move of a word: `w` a whole write, `s` the first step of one, `r` a whole read, `p` a place, `c` a commit, `g` and a group a step of
/// relocation there. Before it stands a queue other than 1 and a colon; behind a write
/// ADDRESS,COUNT,SEED,IDENTIFIER,NAMESPACE,DIRECTIVE, behind a read ADDRESS,COUNT,NAMESPACE. The namespace is 1 where it is left out. The
/// identifier is `-` or left out where there is none; the directive is 2 with an identifier and 0 without, where it is left out. In a
/// number `$` stands for `each`.
pub fn move_of(word: &str, each: u64) -> Option<Move> {
    let (queue, rest) = match word.split_once(':') {
        Some((queue, rest)) => (u8::try_from(number_of(queue, each)?).ok()?, rest),
        None => (1, word),
    };
    if let Some(fields) = rest.strip_prefix('w') {
        return Some(Move::Whole(queue, write_of(fields, each)?));
    }
    if let Some(fields) = rest.strip_prefix('s') {
        return Some(Move::Start(queue, write_of(fields, each)?));
    }
    if let Some(fields) = rest.strip_prefix('r') {
        return Some(Move::Whole(queue, read_of(fields, each)?));
    }
    if let Some(group) = rest.strip_prefix('g') {
        return Some(Move::Collect(group.parse::<u16>().ok()?));
    }
    match rest {
        "p" => Some(Move::Place(queue)),
        "c" => Some(Move::Commit(queue)),
        _ => None,
    }
}

fn write_of(text: &str, each: u64) -> Option<Asked> {
    let mut fields = text.split(',');
    let slba = number_of(fields.next()?, each)?;
    let count = short_number(fields.next()?, each)?;
    let seed = short_number(fields.next()?, each)?;
    let pid = identifier_of(fields.next().unwrap_or("-"), each)?;
    let nsid = short_number(fields.next().unwrap_or("1"), each)?;
    let directive = if pid.is_some() { "2" } else { "0" };
    let dtype = number_of(fields.next().unwrap_or(directive), each)?;
    Some(Asked::Write(Written {
        nsid,
        slba,
        count,
        dtype: u8::try_from(dtype).ok()?,
        dspec: pid.unwrap_or(0),
        seed,
    }))
}

fn read_of(text: &str, each: u64) -> Option<Asked> {
    let mut fields = text.split(',');
    let slba = number_of(fields.next()?, each)?;
    let count = short_number(fields.next()?, each)?;
    let nsid = short_number(fields.next().unwrap_or("1"), each)?;
    Some(Asked::Read { nsid, slba, count })
}

/// A placement identifier, or none where the text is `-`.
pub fn identifier_of(text: &str, each: u64) -> Option<Option<u16>> {
    if text == "-" {
        return Some(None);
    }
    let pid = number_of(text, each)?;
    Some(Some(u16::try_from(pid).ok()?))
}

fn short_number(text: &str, each: u64) -> Option<u32> {
    u32::try_from(number_of(text, each)?).ok()
}

impl Asked {
    pub fn command(self) -> Command {
        match self {
            Asked::Write(write) => Command::Write(Write {
                nsid: write.nsid,
                slba: write.slba,
                count: write.count,
                dtype: write.dtype,
                dspec: write.dspec,
                payload: Payload::Pattern(write.seed),
            }),
            Asked::Read { nsid, slba, count } => Command::Read(Read { nsid, slba, count }),
        }
    }
}
