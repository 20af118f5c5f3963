//! The form of an output, line by line.

ghost use Rattle.std.specs.Prelude.{◌≡◌, bytes_eq};
ghost use Rattle.fdp_reader.specs.Form.{begins, begins_with_digit, is_closing, is_completion, is_queue, is_stats, queues_of, step};

use crate::cut::{behind, front};
use fdp_base::DriveConfig;
use itoa::Buffer;

/// Where a text of lines stands.
#[derive(Clone, Copy, Debug, PartialEq, Eq)]
pub enum Place {
    /// No line was read.
    Start,
    /// In the output of this queue.
    Queue(u8),
    /// Behind the line of the sums, of so many queues.
    Closing(u8),
}

/// How many queues an output has, where it came to its end.
pub fn queues_of(place: Place) -> Option<u8>
    ensures { result ≡ queues_of place }
{
    match place {
        Place::Start | Place::Queue(_) => None,
        Place::Closing(queues) => Some(queues),
    }
}

/// Where a text stands after one line more, if the line may follow.
#[tactic(auto, unfolding(crate::specs::Form::step))]
pub fn step(config: &DriveConfig, place: Place, line: &[u8]) -> Option<Place>
    ensures { result ≡ step config.now place line.now }
{
    match place {
        Place::Start => {
            if is_queue(1, line) {
                Some(Place::Queue(1))
            } else {
                None
            }
        }
        Place::Queue(queue) => step_queue(config, queue, line),
        Place::Closing(queues) => {
            if is_closing(line) {
                Some(Place::Closing(queues))
            } else {
                None
            }
        }
    }
}

#[tactic(auto, unfolding(crate::specs::Form::step))]
fn step_queue(config: &DriveConfig, queue: u8, line: &[u8]) -> Option<Place>
    ensures { result ≡ step config.now (Place.Queue queue) line.now }
{
    if is_stats(line) {
        Some(Place::Closing(queue))
    } else if queue < config.queues && is_queue(queue + 1, line) {
        Some(Place::Queue(queue + 1))
    } else if is_completion(line) {
        Some(Place::Queue(queue))
    } else {
        None
    }
}

fn is_queue(queue: u8, line: &[u8]) -> bool
    ensures { result ≡ is_queue queue line.now }
{
    let mut buffer = Buffer::new();
    let digits = buffer.format(queue).as_bytes();
    begins(b"queue ", line) && is_same(behind(line, 6), digits)
}

fn is_stats(line: &[u8]) -> bool
    ensures { result ≡ is_stats line.now }
{
    begins(b"stats ", line)
}

/// A completion begins with its number, its data with two blanks.
fn is_completion(line: &[u8]) -> bool
    ensures { result ≡ is_completion line.now }
{
    begins_with_digit(line) || begins(b"  ", line)
}

/// The usage of a handle, or an event.
fn is_closing(line: &[u8]) -> bool
    ensures { result ≡ is_closing line.now }
{
    begins(b"ruh ", line) || begins(b"event ", line)
}

fn begins_with_digit(line: &[u8]) -> bool
    ensures { result ≡ begins_with_digit line.now }
{
    match line {
        [first, ..] => b'0' <= *first && *first <= b'9',
        [] => false,
    }
}

fn begins(text: &[u8], line: &[u8]) -> bool
    ensures { result ≡ begins text.now line.now }
{
    is_same(front(line, text.len()), text)
}

fn is_same(left: &[u8], right: &[u8]) -> bool
    ensures { result ≡ bytes_eq left.now right.now }
{
    left == right
}
