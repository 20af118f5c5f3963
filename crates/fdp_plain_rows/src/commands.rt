//! Commands, written as in a trace. Beside those of a trace: `hint` for a Dataset Management command without its deallocate
//! bit, `io` and `admin` with an opcode for one that is not served.
use crate::lists::{create, dataset, set_events, update};
use crate::words::Words;
use fdp_base::{
    Command, Delete, Flush, GetFdp, GetLog, HandleStatus, Other, Payload, Read, Sequence, SetFdp,
    Write, Zero,
};
use std::alloc::{AllocError, Global};

/// The command that words say.
pub fn command_of(alloc: Global, words: &mut Words) -> Result<Command, AllocError> {
    match words.word() {
        "write" => write(alloc, words),
        "dealloc" => dataset(alloc, true, words),
        "hint" => dataset(alloc, false, words),
        "update" => update(alloc, words),
        "set-events" => set_events(alloc, words),
        "create" => create(alloc, words),
        name => Ok(plain_command(name, words)),
    }
}

/// A command without a list.
fn plain_command(name: &str, words: &mut Words) -> Command {
    match name {
        "read" => read(words),
        "zero" => zero(words),
        "flush" => flush(words),
        "delete" => delete(words),
        "status" => status(words),
        "log" => log(words),
        "set-fdp" => set_fdp(words),
        "io" => other(false, words),
        "admin" => other(true, words),
        "get-fdp" => get_fdp(),
        _ => {
            words.refuse();
            get_fdp()
        }
    }
}

/// `NSID SLBA COUNT PAYLOAD`, and behind them `pid PID` or `type DTYPE DSPEC`.
fn write(alloc: Global, words: &mut Words) -> Result<Command, AllocError> {
    let (nsid, slba, count) = (words.number32(), words.number(), words.number32());
    let payload = payload(alloc, words)?;
    let (dtype, dspec) = directive(words);
    Ok(Command::Write(Write {
        nsid,
        slba,
        count,
        dtype,
        dspec,
        payload,
    }))
}

/// A seed, or bytes as `N*COUNT`.
fn payload(alloc: Global, words: &mut Words) -> Result<Payload, AllocError> {
    let word = words.word();
    if word.contains('*') {
        let mut bytes = Vec::new(alloc);
        words.add_run(word, &mut bytes)?;
        Ok(Payload::Bytes(Sequence::from_vec(bytes)))
    } else {
        Ok(Payload::Pattern(words.number_in(word, 0xffff_ffff) as u32))
    }
}

fn directive(words: &mut Words) -> (u8, u16) {
    if words.takes("pid") {
        (2, words.number16())
    } else if words.takes("type") {
        (words.number8(), words.number16())
    } else {
        (0, 0)
    }
}

fn read(words: &mut Words) -> Command {
    Command::Read(Read {
        nsid: words.number32(),
        slba: words.number(),
        count: words.number32(),
    })
}

fn zero(words: &mut Words) -> Command {
    Command::Zero(Zero {
        nsid: words.number32(),
        slba: words.number(),
        count: words.number32(),
    })
}

fn flush(words: &mut Words) -> Command {
    Command::Flush(Flush {
        nsid: words.number32(),
    })
}

fn delete(words: &mut Words) -> Command {
    Command::Delete(Delete {
        nsid: words.number32(),
    })
}

/// `NSID DWORDS`, and behind them a management operation that is not 1.
fn status(words: &mut Words) -> Command {
    let (nsid, dwords) = (words.number32(), words.number32());
    let mo = if words.has_more() { words.number8() } else { 1 };
    Command::Status(HandleStatus { nsid, mo, dwords })
}

/// `LID OFFSET DWORDS`, and behind them `host` for the events that hosts ask for.
fn log(words: &mut Words) -> Command {
    Command::Log(GetLog {
        lid: words.number8(),
        offset: words.number(),
        dwords: words.number32(),
        lsp: u8::from(words.takes("host")),
        group: 1,
    })
}

fn set_fdp(words: &mut Words) -> Command {
    Command::SetFdp(SetFdp {
        group: 1,
        enable: words.is_on(),
        index: words.number8(),
    })
}

fn get_fdp() -> Command {
    Command::GetFdp(GetFdp { group: 1 })
}

fn other(admin: bool, words: &mut Words) -> Command {
    Command::Other(Other {
        admin,
        opcode: words.number8(),
        flags: 0,
        feature: 0,
    })
}
