ghost use Rattle.std.specs.Prelude.{◌≡◌, ◌↔◌, ◌+◌, ◌-◌, ◌*◌, ◌%◌, ◌<◌, ◌≤◌, ℕ, [], ◌∷◌, ◌++◌, length, IsErr, IfOk, OnOk, OnErr, MatchOption, ⊤};

use crate::work::Work;
use fdp_base::MOST_QUEUE_DEPTH;
use fdp_layouts::Cqe;
use std::alloc::{AllocError, Global};
use std::collections::VecDeque;
use std::marker::Model;

/// All slots of a ring but one have an entry.
#[derive(Clone, Copy, Debug, PartialEq, Eq)]
pub struct Full;

/// A submission queue and a completion queue, each a ring of `depth` slots of which one stays empty (NVM Express Base
/// Specification 2.1, "Memory-based Transport Queue Model"). No call but `new` takes memory, and each takes the same
/// short time.
#[derive(Drop)]
pub struct QueuePair {
    depth: u16,
    submissions: VecDeque<Work>,
    completions: VecDeque<Cqe>,
    head: u16,
    posts: u16,
}

impl Model for QueuePair {
    ghost use Rattle.fdp_queues.specs.Rings.{Rings};

    ghost Value = { Rings };

    ghost use Rattle.std.specs.Prelude.{◌≤◌, ◌-◌, length};
    ghost use Rattle.std.specs.VecDeque.{deque_capacity};
    ghost use Rattle.fdp_queues.specs.Rings.{AreRings};

    ghost view = { λ q. record { depth = q.depth; submissions = q.submissions.items; completions = q.completions.items; head = q.head; posts = q.posts } };

    ghost invariant = { λ q. AreRings q.depth (length q.submissions.items) (length q.completions.items) q.head q.posts
        × (q.depth - 1 ≤ deque_capacity q.submissions) × (q.depth - 1 ≤ deque_capacity q.completions) };
}

impl QueuePair {
    ghost use Rattle.fdp_queues.specs.Phase.{phase_tag};
    ghost use Rattle.fdp_queues.specs.Rings.{Rings, HasFetched, HasPosted, IsFullAt, posted, with_phase};

    /// Two empty rings of `depth` slots each, in all the memory that they will ever take.
    pub fn new(alloc: Global, depth: u16) -> Result<Self, AllocError>
        requires shallow { 2 ≤ depth }
        requires deep { depth ≤ MOST_QUEUE_DEPTH }
        ensures empty { IfOk result (λ q. q ≡ record { depth = depth; submissions = []; completions = []; head = 0; posts = 0 }) }
        ensures none_fetched { IfOk result (λ q. HasFetched q 0) }
        ensures none_posted { IfOk result (λ q. HasPosted q 0) }
    {
        let slots = usize::from(depth - 1);
        let submissions = VecDeque::with_capacity(alloc, slots)?;
        let completions = VecDeque::with_capacity(alloc, slots)?;
        Ok(QueuePair {
            depth,
            submissions,
            completions,
            head: 0,
            posts: 0,
        })
    }

    /// Puts an entry behind the others of the submission queue.
    pub fn submit(&mut self, work: Work) -> Result<(), Full>
        ensures ok { OnOk result (self.new ≡ record self.old { submissions = self.old.submissions ++ work ∷ [] }) }
        ensures full { IsErr result ↔ IsFullAt self.old.depth (length self.old.submissions) }
        ensures bounded { length self.new.submissions < self.new.depth }
        ensures err { OnErr result (self.new ≡ self.old) }
    {
        if self.submissions.len() + 1 == usize::from(self.depth) {
            return Err(Full);
        }
        self.submissions.push_back_reserved(work);
        Ok(())
    }

    /// Takes the oldest entry of the submission queue, whose head goes on by a slot.
    pub fn fetch(&mut self) -> Option<Work>
        ensures taken { MatchOption result (self.old.submissions ≡ []) (λ work. self.old.submissions ≡ work ∷ self.new.submissions) }
        ensures rest { MatchOption result (self.new ≡ self.old)
            (λ work. self.new ≡ record self.old { submissions = self.new.submissions; head = (self.old.head + 1) % self.old.depth }) }
        ensures fetched { MatchOption result ⊤ (λ work. (count : ℕ) → HasFetched self.old count → HasFetched self.new (count + 1)) }
    {
        match self.submissions.pop_front() {
            Some(work) => {
                self.head = (self.head + 1) % self.depth;
                Some(work)
            }
            None => None,
        }
    }

    /// The SQ head: the entries that were ever fetched, up to a multiple of the slots.
    pub fn head(&self) -> u16
        ensures { result ≡ self.now.head }
    {
        self.head
    }

    /// Puts a completion behind the others, with the phase tag of its slot: 1 at first, and inverted on each wrap. All
    /// else, as the SQ head and the SQ identifier, is what the caller gives.
    pub fn post(&mut self, cqe: Cqe) -> Result<(), Full>
        ensures ok { OnOk result (self.new ≡ record self.old {
          completions = self.old.completions ++ posted self.old cqe ∷ [];
          posts = (self.old.posts + 1) % (2 * self.old.depth);
        }) }
        ensures phase { OnOk result ((count : ℕ) → HasPosted self.old count
            → (self.new.completions ≡ self.old.completions ++ with_phase (phase_tag self.old.depth count) cqe ∷ []) × HasPosted self.new (count + 1)) }
        ensures full { IsErr result ↔ IsFullAt self.old.depth (length self.old.completions) }
        ensures bounded { length self.new.completions < self.new.depth }
        ensures err { OnErr result (self.new ≡ self.old) }
    {
        if self.completions.len() + 1 == usize::from(self.depth) {
            return Err(Full);
        }
        let mut tagged = cqe;
        tagged.status.phase = self.posts < self.depth;
        self.completions.push_back_reserved(tagged);
        self.posts = (self.posts + 1) % (2 * self.depth);
        Ok(())
    }

    /// Takes the oldest completion, with its phase tag.
    pub fn reap(&mut self) -> Option<Cqe>
        ensures { MatchOption result ((self.old.completions ≡ []) × (self.new ≡ self.old))
            (λ cqe. self.old ≡ record self.new { completions = cqe ∷ self.new.completions }) }
    {
        self.completions.pop_front()
    }
}
