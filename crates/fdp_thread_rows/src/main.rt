//! Runs of the program in which hosts and collectors work beside one another: each prints whether it came out as it has to, whatever the schedule.
#![tactic(auto)]

mod crossing;
mod faulty;
mod filling;
mod judged;
mod load;
mod many;
mod outcome;
mod texts;
mod third;
mod waits;

use std::io;

fn main(rt: HostRuntime) -> io::Result<()> {
    println!(rt; "{}", crossing::row(&rt, rt.alloc())?)?;
    println!(rt; "{}", third::row(&rt, rt.alloc())?)?;
    println!(rt; "{}", load::row(&rt, rt.alloc())?)?;
    println!(rt; "{}", many::row(&rt, rt.alloc())?)?;
    println!(rt; "{}", faulty::row(&rt, rt.alloc())?)?;
    Ok(())
}
