//! A command in the queue pair of its queue: one entry in, one completion out.
ghost use Rattle.std.specs.Prelude.{◌≡◌, ◌+◌, ◌%◌, ◌≤◌, []};
ghost use Rattle.fdp_workers.specs.Pairs.{IsCompletionOf, IsIdlePair, IsReaped};

use fdp_base::{Command, Reply};
use fdp_layouts::{Cqe, RetryDelay, StatusCodeType, StatusField};
use fdp_queues::{QueuePair, work_of};

/// Submits the entry of a command and fetches it, so that the SQ head goes on by a slot: the identifier that it names.
pub fn deliver(pair: &mut QueuePair, command: &Command, number: u16) -> u16
    requires slots { 2 ≤ pair.old.depth }
    requires empty { pair.old.submissions ≡ [] }
    ensures named { result ≡ number }
    ensures fetched { pair.new ≡ record pair.old { head = (pair.old.head + 1) % pair.old.depth } }
{
    // One command is in the pair at a time, and each ring holds one at least.
    let Ok(()) = pair.submit(work_of(command, number)) else {
        unreachable!()
    };
    // It was put there just now.
    let Some(work) = pair.fetch() else {
        unreachable!()
    };
    work.sqe.cid
}

/// Posts the completion of a command with this reply and reaps it: it has the phase tag of its slot. The entries of its queue were fetched up to its own.
pub fn complete(pair: &mut QueuePair, queue: u8, number: u16, reply: &Reply) -> Cqe
    requires idle { IsIdlePair pair.old.depth (number + 1) number pair.old }
    ensures reaped { IsReaped pair.old.depth queue number reply.now result }
    ensures idle { IsIdlePair pair.old.depth (number + 1) (number + 1) pair.new }
{
    let cqe = completion_of(queue, pair.head(), number, reply);
    // One command is in the pair at a time, and each ring holds one at least.
    let Ok(()) = pair.post(cqe) else {
        unreachable!()
    };
    // It was put there just now.
    let Some(reaped) = pair.reap() else {
        unreachable!()
    };
    reaped
}

/// The completion of a command with this reply and this SQ head (NVM Express Base Specification 2.1, "Completion Queue Entry"). Its phase tag is that of its
/// slot, and comes with the posting.
fn completion_of(queue: u8, head: u16, number: u16, reply: &Reply) -> Cqe
    ensures { IsCompletionOf queue head number reply.now result }
{
    Cqe {
        dw0: reply.dw0,
        dw1: 0,
        sq_head: head,
        sq_id: u16::from(queue),
        cid: number,
        status: StatusField {
            phase: false,
            sc: reply.status.sc,
            sct: StatusCodeType::from_code(reply.status.sct % 8),
            crd: RetryDelay::None,
            more: false,
            dnr: false,
        },
    }
}
