//! Tries rows of the layouts: each line of standard input names a layout and has its bytes in hexadecimal. Told are the
//! bytes of what was read and its fields, or why the bytes are refused. `bits` in place of bytes tries each bit alone.
#![tactic(auto)]

mod bits;
mod row;
mod status;

use crate::bits::tell_bits;
use crate::row::tell_row;
use crate::status::tell_status;
use fdp_layouts::{
    ConfigDesc, ConfigHead, Cqe, DsmRange, EventDesc, EventHead, ReallocatedDesc, RuhClass,
    RuhStatusDesc, RuhStatusHead, RuhUse, RuhUseHead, Sqe, Stats,
};
use std::io;

fn main(rt: HostRuntime) -> io::Result<()> {
    for line in rt.lines(rt.alloc()) {
        let line = line?;
        match line.split_once(' ') {
            Some((layout, "bits")) => bits_of(&rt, layout)?,
            Some(("StatusField", codes)) => tell_status(&rt, codes)?,
            Some((layout, bytes)) => row_of(&rt, layout, bytes)?,
            None => println!(rt; "{line}: no row")?,
        }
    }
    Ok(())
}

fn row_of(rt: &HostRuntime, layout: &str, bytes: &str) -> io::Result<()> {
    match layout {
        "Sqe" => tell_row::<64, Sqe>(rt, bytes),
        "Cqe" => tell_row::<16, Cqe>(rt, bytes),
        "DsmRange" => tell_row::<16, DsmRange>(rt, bytes),
        "ConfigHead" => tell_row::<16, ConfigHead>(rt, bytes),
        "ConfigDesc" => tell_row::<64, ConfigDesc>(rt, bytes),
        "RuhClass" => tell_row::<4, RuhClass>(rt, bytes),
        "RuhUseHead" => tell_row::<8, RuhUseHead>(rt, bytes),
        "RuhUse" => tell_row::<8, RuhUse>(rt, bytes),
        "Stats" => tell_row::<64, Stats>(rt, bytes),
        "EventHead" => tell_row::<64, EventHead>(rt, bytes),
        "EventDesc" => tell_row::<64, EventDesc>(rt, bytes),
        "ReallocatedDesc" => tell_row::<16, ReallocatedDesc>(rt, bytes),
        "RuhStatusHead" => tell_row::<16, RuhStatusHead>(rt, bytes),
        "RuhStatusDesc" => tell_row::<32, RuhStatusDesc>(rt, bytes),
        _ => println!(rt; "{layout}: no layout"),
    }
}

fn bits_of(rt: &HostRuntime, layout: &str) -> io::Result<()> {
    match layout {
        "Sqe" => tell_bits::<64, Sqe>(rt),
        "Cqe" => tell_bits::<16, Cqe>(rt),
        "DsmRange" => tell_bits::<16, DsmRange>(rt),
        "ConfigHead" => tell_bits::<16, ConfigHead>(rt),
        "ConfigDesc" => tell_bits::<64, ConfigDesc>(rt),
        "RuhClass" => tell_bits::<4, RuhClass>(rt),
        "RuhUseHead" => tell_bits::<8, RuhUseHead>(rt),
        "RuhUse" => tell_bits::<8, RuhUse>(rt),
        "Stats" => tell_bits::<64, Stats>(rt),
        "EventHead" => tell_bits::<64, EventHead>(rt),
        "EventDesc" => tell_bits::<64, EventDesc>(rt),
        "ReallocatedDesc" => tell_bits::<16, ReallocatedDesc>(rt),
        "RuhStatusHead" => tell_bits::<16, RuhStatusHead>(rt),
        "RuhStatusDesc" => tell_bits::<32, RuhStatusDesc>(rt),
        _ => println!(rt; "{layout}: no layout"),
    }
}
