ghost use Rattle.std.specs.Prelude.{◌≡◌, ◌≤◌, [], All, length, map};
ghost use Rattle.fdp_board.specs.Board.{HasServedNothing};
ghost use Rattle.fdp_crews.specs.Crews.{IsTrace};
ghost use Rattle.fdp_drive.specs.Session.{IsSession};
ghost use Rattle.fdp_gauge.specs.Passes.{IsPassOf, IsTellerOf};
ghost use Rattle.fdp_crews.specs.fdp_workers.declared.ends.End.TheVariants as ends;

use fdp_base::Command;
use fdp_board::Board;
use fdp_crews::{End, Group, Receipt, Shift, serve_traces};
use fdp_flash::Flash;
use fdp_gauge::{Gauge, Pass, Teller};
use fdp_io::Gate;
use std::alloc::Global;
use std::sync::Wait;
use std::thread::Threads;

/// A drive behind a session, the receipts of each trace, and how the session ended. Where it ended whole there is a list of receipts for each trace.
#[derive(Drop)]
pub struct SessionEnd<F: Flash> {
    pub group: Group<F>,
    pub receipts: Vec<Vec<Receipt>>,
    pub end: End,
}

/// Serves these traces on a drive that has served nothing since it was opened: each by a host of its own, the first in queue 1, each command through the pair of its queue, with so
/// many collectors beside them that take at most so many turns each. Hosts and collectors work on threads of their own and take turns with the drive, one
/// step a turn. A queue without a trace counts as one with an empty trace.
pub fn run_session<F: Flash + Send + Drop, G: Gate + Sync, R: Threads + Wait + Sync>(
    rt: &R,
    alloc: Global,
    group: Group<F>,
    traces: Vec<Vec<Command>>,
    collectors: u8,
    turns: u32,
    gate: &G,
) -> SessionEnd<F>
    requires unserved { HasServedNothing F.state group }
    requires traces { All (λ trace. IsTrace group.book.config trace.items) traces.items }
    requires queues { length traces.items ≤ group.book.config.queues }
    requires few { collectors ≤ 8 }
    ensures { IsSession F.state group result.group (map (λ trace. trace.items) traces.items) (map (λ got. got.items) result.receipts.items) result.end }
{
    let Ok(config) = group.config().copied() else {
        return unserved(alloc, group);
    };
    let workers = traces.len() + usize::from(collectors);
    let Ok(passes) = Vec::with_capacity(alloc, workers + 1) else {
        return unserved(alloc, group);
    };
    let Ok((gauge, teller, pass)) = Gauge::new(alloc, config.unit_pages) else {
        return unserved(alloc, group);
    };
    let board = Board::new(group, teller);
    let Shift {
        value,
        passes,
        receipts,
        end,
    } = serve_traces(
        rt, alloc, board, &gauge, pass, passes, gate, &config, traces, collectors, turns,
    );
    let (group, mut teller) = value.into_parts();
    settle_all(rt, &gauge, &mut teller, passes);
    SessionEnd {
        group,
        receipts,
        end,
    }
}

/// A session for which there is no memory: nothing was served.
fn unserved<F: Flash>(alloc: Global, group: Group<F>) -> SessionEnd<F>
    ensures group { result.group ≡ group }
    ensures receipts { result.receipts.items ≡ [] }
    ensures end { result.end ≡ ends.NoMemory }
{
    SessionEnd {
        group,
        receipts: Vec::new(alloc),
        end: End::NoMemory,
    }
}

/// Ends the passes of a gauge: what each has seen is a beginning of what the teller has told.
fn settle_all<R: Wait>(rt: &R, gauge: &Gauge, teller: &mut Teller, passes: Vec<Pass>)
    requires of_gauge { IsTellerOf gauge.now teller.old }
    requires passes { All (λ pass. IsPassOf gauge.now pass) passes.items }
{
    for pass in passes {
        gauge.settle(rt, teller, pass);
    }
}
