ghost use Rattle.std.specs.Prelude.{◌≡◌, ◌≤◌, ◌+◌, length, IfOk, refl};
ghost use Rattle.fdp_snapshot.specs.Rows.{configuration_bytes, configuration_in};
ghost use Rattle.fdp_snapshot.specs.Sizes.{AnyRow, RowFits};

use crate::row::Row;
use fdp_base::Sequence;
use fdp_records::{put, read_u16};
use std::alloc::{AllocError, Global};

/// The handles of one FDP configuration.
#[derive(Clone, Copy, Debug, PartialEq, Eq)]
pub struct HandleRow {
    /// How many there are.
    pub handles: u8,
    /// Which of them are persistently isolated, handle 0 in the lowest bit.
    pub persistent: u16,
}

/// The values of a configuration that a flash is made for: each run has to bring the same.
#[derive(Debug, Drop)]
pub struct Keys {
    pub block: u32,
    pub unit_pages: u32,
    pub groups: u32,
    pub units: u32,
    pub area_units: u32,
    pub queues: u32,
    pub blocks_per_command: u32,
    /// The FDP configurations, at most four.
    pub configurations: Sequence<HandleRow>,
}

impl Row for HandleRow {
    ghost width = { 4 };

    ghost bytes_of = { configuration_bytes };

    ghost read_from = { configuration_in };

    ghost Is = { AnyRow };

    ghost Fits = { RowFits };

    ghost long = { λ x. refl };

    fn size() -> usize {
        4
    }

    fn put(&self, into: &mut [u8], at: usize) {
        let [low, high] = self.persistent.to_le_bytes();
        put(into, at, &[self.handles, 0, low, high]);
    }

    fn read(alloc: Global, bytes: &[u8]) -> Result<HandleRow, AllocError> {
        let _alloc = alloc; // proof
        Ok(HandleRow {
            handles: bytes[0],
            persistent: read_u16(bytes, 2),
        })
    }
}
