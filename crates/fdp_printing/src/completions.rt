//! The completions of the queues.

ghost use Rattle.std.specs.Prelude.{◌≡◌, ◌++◌, ◌∷◌, [], OnOk, codes, decimal, flat_map};
ghost use Rattle.fdp_base.specs.Numbers.{numbers_from};
ghost use Rattle.fdp_base.specs.Text.{line};
ghost use Rattle.fdp_output.specs.Output.{completion_of, queue_text};
ghost use Rattle.fdp_printing.specs.Printing.{PrintsOn};

use crate::pieces::{Cut, write_piece};
use fdp_base::Entry;
use fdp_io::Sink;
use fdp_trace::{print_completion, push_decimal};
use std::alloc::AllocError;

/// Prints the completions of so many queues, one queue after another: it goes over the history once for each.
pub fn print_queues<K: Sink>(
    entries: &[Entry],
    traces: u8,
    text: &mut Vec<u8>,
    sink: &mut K,
) -> Result<(), Cut>
    ensures { PrintsOn (K.state sink.old) (K.state sink.new) text.old.items text.new.items (flat_map (queue_text entries.now) (numbers_from 1 traces)) result }
{
    for index in 0..traces {
        print_queue(entries, index + 1, text, sink)?;
    }
    Ok(())
}

/// Prints the first line of a queue's output, and its completions.
fn print_queue<K: Sink>(
    entries: &[Entry],
    queue: u8,
    text: &mut Vec<u8>,
    sink: &mut K,
) -> Result<(), Cut>
    ensures { PrintsOn (K.state sink.old) (K.state sink.new) text.old.items text.new.items (queue_text entries.now queue) result }
{
    if push_queue(queue, text).is_err() {
        return Err(Cut::NoMemory);
    }
    for entry in entries {
        print_entry(queue, entry, text, sink)?;
    }
    Ok(())
}

/// Prints the lines of an entry in the output of a queue.
fn print_entry<K: Sink>(
    queue: u8,
    entry: &Entry,
    text: &mut Vec<u8>,
    sink: &mut K,
) -> Result<(), Cut>
    ensures { PrintsOn (K.state sink.old) (K.state sink.new) text.old.items text.new.items (completion_of queue entry.now) result }
{
    if push_entry(queue, entry, text).is_err() {
        return Err(Cut::NoMemory);
    }
    write_piece(text, sink)
}

/// Appends the first line of a queue's output.
fn push_queue(queue: u8, into: &mut Vec<u8>) -> Result<(), AllocError>
    ensures { OnOk result (into.new.items ≡ into.old.items ++ line (codes "queue" ∷ decimal queue ∷ [])) }
{
    into.extend_from_slice(b"queue ")?;
    push_decimal(into, u64::from(queue))?;
    into.push(b'\n')?;
    Ok(())
}

/// Appends the lines of an entry: those of its completion, where it is one of this queue.
fn push_entry(queue: u8, entry: &Entry, into: &mut Vec<u8>) -> Result<(), AllocError>
    ensures { OnOk result (into.new.items ≡ into.old.items ++ completion_of queue entry.now) }
{
    match entry.as_host() {
        Some(host) if host.queue == queue => {
            print_completion(host.number, &host.command, &host.reply, into)
        }
        _ => Ok(()),
    }
}
