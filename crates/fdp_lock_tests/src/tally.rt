use fdp_base::Recorded;
use std::alloc::{AllocError, Global};

// So a tally is as large as a drive, about 1 KB.
const WORDS: usize = 128;

/// A list of the numbers of the seats that added to it, under a name, and a weight that a move has to carry.
#[derive(Drop)]
pub struct Tally {
    pub name: u64,
    pub numbers: Vec<u8>,
    pub weight: [u64; WORDS],
}

impl Tally {
    ghost use Rattle.std.specs.Prelude.{◌≡◌, [], IfOk};
    ghost use Rattle.fdp_lock_tests.specs.Tally.{name_of, numbers_of};

    /// A tally with no number, and room for so many.
    pub fn with_room(alloc: Global, name: u64, room: usize) -> Result<Tally, AllocError>
        ensures name { IfOk result (λ t. name_of t ≡ name) }
        ensures empty { IfOk result (λ t. numbers_of t ≡ []) }
    {
        let numbers = Vec::with_capacity(alloc, room)?;
        Ok(Tally {
            name,
            numbers,
            weight: [0; WORDS],
        })
    }
}

impl Recorded for Tally {
    ghost use Rattle.fdp_lock_tests.specs.Tally.{name_of, numbers_of, mark_of};

    type Origin = u64;

    type Item = u8;

    ghost origin = { name_of };

    ghost entries = { numbers_of };

    ghost mark = { mark_of };

    fn length(&self) -> u64 {
        self.numbers.len() as u64
    }
}
