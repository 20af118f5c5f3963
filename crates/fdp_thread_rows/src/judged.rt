ghost use Rattle.std.specs.Option.{IfSome};
ghost use Rattle.fdp_finding.specs.Task.{CanServe};

use crate::outcome::spelled;
use fdp_core::Group;
use fdp_core_tests::replay;
use fdp_drive::{SessionEnd, run_session};
use fdp_finding::{Task, Wanted, find};
use fdp_flash::{FlashMem, Plan};
use fdp_io::{BenchMem, OpenGate};
use fdp_workers::End;
use std::alloc::{AllocError, Global};
use std::sync::Wait;
use std::thread::Threads;

/// Serves the traces that the words name, on a drive over a blank flash, and gives the history to the plain drive: whether each trace is whole, and the plain
/// drive takes each entry.
pub fn judge<R: Threads + Wait + Sync>(
    rt: &R,
    alloc: Global,
    words: &[&str],
    bench: &mut BenchMem,
) -> Result<bool, AllocError> {
    let asked = spelled(alloc, words)?;
    let Some(wanted) = wanted(alloc, &asked, bench) else {
        return Ok(false);
    };
    let Wanted {
        form: _,
        config,
        image: _,
        traces,
    } = wanted;
    let flash = FlashMem::new(alloc, config.geometry(), Plan::empty(alloc))?;
    let Ok(group) = Group::load(alloc, flash, &config) else {
        return Ok(false);
    };
    let (collectors, turns) = (config.collectors, config.turns);
    let SessionEnd {
        group,
        receipts: _,
        end,
    } = run_session(rt, alloc, group, traces, collectors, turns, &OpenGate);
    let taken = replay(alloc, &config, group.entries())?;
    let is_whole = match end {
        End::Whole => true,
        End::NoMemory | End::Turns => false,
    };
    Ok(is_whole && taken == group.entries().len())
}

/// The configuration and the traces that the words name.
fn wanted<'a>(alloc: Global, words: &'a [String], bench: &mut BenchMem) -> Option<Wanted<'a>>
    ensures { IfSome result CanServe }
{
    match find(alloc, words, bench) {
        Ok(Task::Serve(wanted)) => Some(wanted),
        Ok(Task::Audit(_)) | Err(_) => None,
    }
}
