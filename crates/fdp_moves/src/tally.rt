//! How often moves came to something.
use crate::drive::Advance;
use crate::play::Came;
use fdp_base::Status;
use std::alloc::{AllocError, Global};

/// How often commands and steps of relocation came to something.
#[derive(Clone, Copy)]
pub struct Tally {
    pub ok: u64,
    pub capacity: u64,
    pub other: u64,
    pub media: u64,
    pub copied: u64,
    pub moved: u64,
    pub erased: u64,
    pub starved: u64,
    pub fault: u64,
}

impl Tally {
    pub fn new() -> Tally {
        Tally {
            ok: 0,
            capacity: 0,
            other: 0,
            media: 0,
            copied: 0,
            moved: 0,
            erased: 0,
            starved: 0,
            fault: 0,
        }
    }

    pub fn note(&mut self, came: &Came) {
        match came {
            Came::Nothing => {}
            Came::Done(reply) => self.note_status(reply.status),
            Came::Advanced(advance) => self.note_advance(*advance),
        }
    }

    fn note_status(&mut self, status: Status) {
        let count = match status {
            Status::SUCCESS => &mut self.ok,
            Status::CAPACITY_EXCEEDED => &mut self.capacity,
            Status::WRITE_FAULT | Status::UNRECOVERED_READ_ERROR => &mut self.media,
            _ => &mut self.other,
        };
        *count = count.saturating_add(1);
    }

    fn note_advance(&mut self, advance: Advance) {
        let count = match advance {
            Advance::Nothing => return,
            Advance::Copied => &mut self.copied,
            Advance::Moved => &mut self.moved,
            Advance::Erased => &mut self.erased,
            Advance::Starved => &mut self.starved,
            Advance::Fault => &mut self.fault,
        };
        *count = count.saturating_add(1);
    }

    /// Adds what came of other moves.
    pub fn add(&mut self, other: &Tally) {
        self.ok = self.ok.saturating_add(other.ok);
        self.capacity = self.capacity.saturating_add(other.capacity);
        self.other = self.other.saturating_add(other.other);
        self.media = self.media.saturating_add(other.media);
        self.copied = self.copied.saturating_add(other.copied);
        self.moved = self.moved.saturating_add(other.moved);
        self.erased = self.erased.saturating_add(other.erased);
        self.starved = self.starved.saturating_add(other.starved);
        self.fault = self.fault.saturating_add(other.fault);
    }

    pub fn text(&self, alloc: Global) -> Result<String, AllocError> {
        let commands = format!(in alloc;
            "{} ok, {} over capacity, {} refused, {} media errors",
            self.ok, self.capacity, self.other, self.media
        )?;
        format!(in alloc;
            "{commands}; {} copied, {} moved, {} erased, {} starved, {} faults",
            self.copied, self.moved, self.erased, self.starved, self.fault
        )
    }
}
