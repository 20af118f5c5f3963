//! Tells of each line of a trace the submission queue entry of its command, with command identifier 0102h: its kind of queue,
//! and the bytes that are not zero, each with its offset.
#![tactic(auto)]

use fdp_base::Command;
use fdp_layouts::Frame;
use fdp_queues::work_of;
use fdp_trace::read_trace;
use std::io;

fn main(rt: HostRuntime) -> io::Result<()> {
    for line in rt.lines(rt.alloc()) {
        let line = line?;
        match read_trace(rt.alloc(), line.as_bytes()) {
            Ok(commands) => {
                for command in &commands {
                    tell(&rt, command)?;
                }
            }
            Err(_) => println!(rt; "{line}: no command")?,
        }
    }
    Ok(())
}

fn tell(rt: &HostRuntime, command: &Command) -> io::Result<()> {
    let work = work_of(command, 0x0102);
    if work.admin {
        print!(rt; "admin")?;
    } else {
        print!(rt; "I/O")?;
    }
    for (offset, byte) in work.sqe.encode().iter().enumerate() {
        if *byte != 0 {
            print!(rt; " {offset}:{byte:02x}")?;
        }
    }
    println!(rt)
}
