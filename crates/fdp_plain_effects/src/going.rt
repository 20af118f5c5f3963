ghost use Rattle.fdp_base.specs.Numbers.{numbers_from, with_at};
ghost use Rattle.fdp_plain_effects.specs.Going.{HasRoomFor, counted};
ghost use Rattle.fdp_rules.specs.Change.{going_with, holds_ticket, placed_going};
ghost use Rattle.fdp_tables.specs.State.{going_of, plain_of, row};
ghost use Rattle.std.specs.Option.{option_copied};
ghost use Rattle.std.specs.Prelude.{◌≡◌, ℕ, ◌+◌, ◌<◌, ◌==◌, Some, None, find, length, map, option_map};

use fdp_tables::{Kept, KeptGoing};

/// A write is going in a queue, or none.
pub(crate) fn set_going(kept: &mut Kept, queue: u8, going: Option<KeptGoing>)
    requires { queue < length kept.old.going.items }
    ensures state { plain_of kept.new ≡ record (plain_of kept.old) { going = with_at (plain_of kept.old).going queue (option_map going_of going) } }
    ensures rest { kept.new ≡ record kept.old { going = kept.new.going } }
    ensures rows { length kept.new.going.items ≡ length kept.old.going.items }
{
    kept.going[usize::from(queue)] = going;
}

/// Whether the write with this ticket is going in a queue.
fn holds_ticket(kept: &Kept, ticket: u64, queue: u8) -> bool
    ensures { result ≡ holds_ticket (plain_of kept.now) ticket queue }
{
    match kept.going_in(queue) {
        Some(going) => going.ticket == ticket,
        None => false,
    }
}

/// The queue in which the write with this ticket is going.
#[tactic(auto, using(fdp_tables::proofs::Walks::seeking_queue_next, fdp_tables::proofs::Walks::seeking_queue_found, fdp_tables::proofs::Walks::seeking_queue_end))]
fn queue_of(kept: &Kept, ticket: u64) -> Option<u8>
    ensures { result ≡ find (holds_ticket (plain_of kept.now) ticket) (numbers_from 1 kept.now.config.queues) }
{
    for before in 0..kept.config.queues {
        if holds_ticket(kept, ticket, before + 1) {
            return Some(before + 1);
        }
    }
    None
}

/// The going write with this ticket.
pub(crate) fn going_with(kept: &Kept, ticket: u64) -> Option<&KeptGoing>
    ensures { option_map going_of (option_copied result) ≡ going_with kept.now.config (plain_of kept.now) ticket }
{
    match queue_of(kept, ticket) {
        Some(queue) => kept.going_in(queue),
        None => None,
    }
}

/// A page more of the write with this ticket was programmed.
pub(crate) fn count_page(kept: &mut Kept, ticket: u64)
    requires { (queue : ℕ) → HasRoomFor ticket (row kept.old.going.items queue) }
    ensures state { plain_of kept.new ≡ record (plain_of kept.old) { going = placed_going (plain_of kept.old) ticket } }
    ensures rest { kept.new ≡ record kept.old { going = kept.new.going } }
    ensures rows { length kept.new.going.items ≡ length kept.old.going.items }
{
    count_in(kept.going.as_mut_slice(), ticket);
}

fn count_in(rows: &mut [Option<KeptGoing>], ticket: u64)
    requires { (queue : ℕ) → HasRoomFor ticket (row rows.old queue) }
    ensures { rows.new ≡ map (counted ticket) rows.old }
{
    for going in rows.iter_mut() {
        count_one(going, ticket);
    }
}

fn count_one(going: &mut Option<KeptGoing>, ticket: u64)
    requires { HasRoomFor ticket going.old }
    ensures { going.new ≡ counted ticket going.old }
{
    if let Some(going) = going {
        if going.ticket == ticket {
            going.placed += 1;
        }
    }
}
