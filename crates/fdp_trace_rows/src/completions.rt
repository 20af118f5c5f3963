use fdp_base::{Bytes, Command, Flush, GetLog, Other, Read, Reply, Sequence, Status};
use fdp_trace::{
    lines_spell_the_spelled, no_line_spells_an_entry, print_command, print_completion,
    printed_is_read,
};
use std::alloc::{AllocError, Global};

/// A refused command, a read of two blocks, a log of 33 bytes, and a command that no trace spells.
pub fn completions(alloc: Global) -> Result<Vec<u8>, AllocError> {
    let mut text = Vec::new(alloc);
    print_refused(alloc, &mut text)?;
    print_read(alloc, &mut text)?;
    print_log(alloc, &mut text)?;
    print_other(&mut text)?;
    // What is printed of a command that a trace can spell is read back as it; of no other it is a line.
    printed_is_read();
    lines_spell_the_spelled();
    no_line_spells_an_entry();
    Ok(text)
}

fn print_refused(alloc: Global, text: &mut Vec<u8>) -> Result<(), AllocError> {
    let refused = reply(Sequence::new(alloc), Status::LBA_OUT_OF_RANGE, 0);
    print_completion(12, &Command::Flush(Flush { nsid: 1 }), &refused, text)
}

/// Two blocks of eight bytes: one word over and over, and two words.
fn print_read(alloc: Global, text: &mut Vec<u8>) -> Result<(), AllocError> {
    let blocks = [7u8, 0, 0, 0, 7, 0, 0, 0, 0xde, 0xad, 0xbe, 0xef, 0, 1, 2, 3].to_vec(alloc)?;
    let read = reply(Sequence::from_vec(blocks), Status::SUCCESS, 0xab);
    let command = Command::Read(Read {
        nsid: 1,
        slba: 0,
        count: 2,
    });
    print_completion(0, &command, &read, text)
}

fn print_log(alloc: Global, text: &mut Vec<u8>) -> Result<(), AllocError> {
    let log = reply(
        Sequence::from_vec([1u8; 33].to_vec(alloc)?),
        Status::SUCCESS,
        0,
    );
    let command = Command::Log(GetLog {
        lid: 32,
        lsp: 0,
        group: 1,
        offset: 0,
        dwords: 8,
    });
    print_completion(65535, &command, &log, text)
}

fn print_other(text: &mut Vec<u8>) -> Result<(), AllocError> {
    let command = Command::Other(Other {
        admin: true,
        opcode: 2,
        flags: 0,
        feature: 29,
    });
    print_command(&command, text)?;
    text.push(b'\n')?;
    Ok(())
}

fn reply(bytes: Bytes, status: Status, dw0: u32) -> Reply {
    Reply {
        status,
        dw0,
        bytes,
        applied: false,
    }
}
