ghost use Rattle.std.specs.Prelude.{◌≡◌, IfOk};

use fdp_base::{
    Aside, BlockNames, Bytes, Copied, Entry, Erased, Host, Moved, Placed, Reply, Retired, Shut,
    Started, Worn,
};
use std::alloc::{AllocError, Global};

/// A second copy of an entry. It fails only for want of memory.
pub(crate) fn copied(alloc: Global, entry: &Entry) -> Result<Entry, AllocError>
    ensures { IfOk result (λ copy. copy ≡ entry.now) }
{
    Ok(match entry {
        Entry::Host(host) => Entry::Host(Host {
            queue: host.queue,
            number: host.number,
            command: host.command.copied()?,
            reply: copied_reply(alloc, &host.reply)?,
            moment: host.moment,
        }),
        Entry::Started(started) => Entry::Started(Started {
            queue: started.queue,
            number: started.number,
            command: started.command.copied()?,
            rg: started.rg,
            ruh: started.ruh,
            pid_valid: started.pid_valid,
        }),
        Entry::Placed(placed) => Entry::Placed(Placed {
            ticket: placed.ticket,
            index: placed.index,
            unit: placed.unit,
            page: placed.page,
        }),
        Entry::Copied(copied) => Entry::Copied(Copied {
            from: copied.from,
            to: copied.to,
        }),
        Entry::Moved(moved) => Entry::Moved(Moved {
            rg: moved.rg,
            blocks: copied_names(alloc, &moved.blocks)?,
        }),
        Entry::Erased(erased) => Entry::Erased(Erased { unit: erased.unit }),
        Entry::Retired(retired) => Entry::Retired(Retired { unit: retired.unit }),
        Entry::Aside(aside) => Entry::Aside(Aside { unit: aside.unit }),
        Entry::Shut(shut) => Entry::Shut(Shut {
            rg: shut.rg,
            ruh: shut.ruh,
        }),
        Entry::Worn(worn) => Entry::Worn(Worn { rg: worn.rg }),
        Entry::Reopened => Entry::Reopened,
    })
}

fn copied_reply(alloc: Global, reply: &Reply) -> Result<Reply, AllocError>
    ensures { IfOk result (λ copy. copy ≡ reply.now) }
{
    Ok(Reply {
        status: reply.status,
        dw0: reply.dw0,
        bytes: Bytes::from_vec(Vec::from_slice(alloc, reply.bytes.as_slice())?),
        applied: reply.applied,
    })
}

fn copied_names(alloc: Global, blocks: &BlockNames) -> Result<BlockNames, AllocError>
    ensures { IfOk result (λ copy. copy ≡ blocks.now) }
{
    Ok(BlockNames::from_vec(Vec::from_slice(alloc, blocks.as_slice())?))
}
