//! Moves that a generator chooses.
use crate::drive::Drive;
use crate::heard::Heard;
use crate::moves::{Asked, Move, Written, identifier_of};
use crate::play::make;
use fdp_base::DriveConfig;
use std::alloc::{AllocError, Global};

/// Numbers of a linear congruence, of which the high half is used.
#[derive(Clone, Copy)]
struct Numbers {
    x: u64,
}

impl Numbers {
    fn next(&mut self) -> u32 {
        self.x = self
            .x
            .wrapping_mul(6364136223846793005)
            .wrapping_add(1442695040888963407);
        u32::try_from(self.x >> 32).unwrap_or(0)
    }

    /// A number below `end`, 0 where that is 0.
    fn below(&mut self, end: u64) -> u64 {
        let number = u64::from(self.next());
        if end == 0 { 0 } else { number % end }
    }

    /// A number from 1 to `most`, 1 where that is 0.
    fn up_to(&mut self, most: u16) -> u32 {
        let number = self.below(u64::from(most));
        u32::try_from(number).unwrap_or(0).saturating_add(1)
    }
}

/// Moves that a generator chooses from a seed: of sixteen nine are places, three commits, one the start of a write of the first
/// namespace, with one of these identifiers, one a read, and two steps of relocation, or else places too.
#[derive(Clone, Copy)]
pub struct Seeded<'a> {
    pub seed: u64,
    pub moves: u64,
    pub identifiers: &'a str,
    pub relocates: bool,
}

/// Makes these moves, of all queues.
pub fn play_seeded<D: Drive>(
    alloc: Global,
    drive: &mut D,
    seeded: Seeded,
    heard: &mut Heard,
) -> Result<(), AllocError> {
    let mut numbers = Numbers { x: seeded.seed };
    for _ in 0..seeded.moves {
        let made = choose(&mut numbers, drive.config(), seeded);
        let came = make(alloc, drive, made)?;
        heard.tally.note(&came);
    }
    Ok(())
}

/// Writes of one block that a generator chooses from a seed: each block of the first namespace as often, or four of five times one of its
/// first fifth.
#[derive(Clone, Copy)]
pub struct Overwrites {
    pub seed: u64,
    pub count: u64,
    pub skewed: bool,
}

/// Makes these writes, as queue 1.
pub fn overwrite<D: Drive>(
    alloc: Global,
    drive: &mut D,
    writes: Overwrites,
    heard: &mut Heard,
) -> Result<(), AllocError> {
    let mut numbers = Numbers { x: writes.seed };
    let blocks = blocks_of(drive.config());
    for _ in 0..writes.count {
        let hot = writes.skewed && numbers.below(5) != 0;
        let asked = Asked::Write(Written {
            nsid: 1,
            slba: numbers.below(if hot { blocks / 5 } else { blocks }),
            count: 1,
            dtype: 0,
            dspec: 0,
            seed: numbers.next(),
        });
        let came = make(alloc, drive, Move::Whole(1, asked))?;
        heard.tally.note(&came);
    }
    Ok(())
}

fn choose(numbers: &mut Numbers, config: &DriveConfig, seeded: Seeded) -> Move {
    let kind = numbers.below(16);
    let queue = u8::try_from(numbers.up_to(u16::from(config.queues))).unwrap_or(1);
    match kind {
        0 => Move::Start(queue, chosen_write(numbers, config, seeded.identifiers)),
        1 => Move::Whole(queue, chosen_read(numbers, config)),
        2 | 3 if seeded.relocates => {
            Move::Collect(u16::try_from(numbers.below(u64::from(config.groups))).unwrap_or(0))
        }
        4..=6 => Move::Commit(queue),
        _ => Move::Place(queue),
    }
}

fn chosen_write(numbers: &mut Numbers, config: &DriveConfig, identifiers: &str) -> Asked {
    let pid = chosen_identifier(numbers, identifiers);
    Asked::Write(Written {
        nsid: 1,
        slba: numbers.below(blocks_of(config)),
        count: numbers.up_to(config.blocks_per_command),
        dtype: if pid.is_some() { 2 } else { 0 },
        dspec: pid.unwrap_or(0),
        seed: numbers.next(),
    })
}

fn chosen_read(numbers: &mut Numbers, config: &DriveConfig) -> Asked {
    Asked::Read {
        nsid: 1,
        slba: numbers.below(blocks_of(config)),
        count: numbers.up_to(config.blocks_per_command),
    }
}

/// One of these identifiers, or none where one is `-` or there are none.
fn chosen_identifier(numbers: &mut Numbers, identifiers: &str) -> Option<u16> {
    let count = identifiers.split_whitespace().count() as u64;
    let place = numbers.below(count);
    let word = identifiers
        .split_whitespace()
        .nth(place as usize)
        .unwrap_or("-");
    identifier_of(word, 0).flatten()
}

/// The blocks of the first namespace.
pub fn blocks_of(config: &DriveConfig) -> u64 {
    match config.namespaces.as_slice() {
        [first, ..] => first.blocks,
        [] => 0,
    }
}
