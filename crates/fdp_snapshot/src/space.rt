ghost use Rattle.std.specs.Prelude.{◌≡◌, ◌≤◌, ◌+◌, length, IfOk};
ghost use Rattle.fdp_snapshot.specs.Lengths.{space_long};
ghost use Rattle.fdp_snapshot.specs.Rows.{IsSpaceRow, space_bytes, space_in};
ghost use Rattle.fdp_snapshot.specs.Sizes.{SpaceFits};

use crate::handles::NamespaceHandles;
use crate::row::Row;
use fdp_records::{put, read_u64};
use std::alloc::{AllocError, Global};

/// A namespace as a checkpoint keeps it.
#[derive(Debug, Drop)]
pub struct Space {
    /// Its size in blocks, at least one.
    pub size: u64,
    /// The position of its creation; 0 for those that the drive was made with.
    pub birth: u64,
    /// Whether the host gave the list of handles.
    pub given: bool,
    /// Its reclaim unit handles by placement handle, at most sixteen.
    pub handles: NamespaceHandles,
}

impl Row for Option<Space> {
    ghost width = { 40 };

    ghost bytes_of = { space_bytes };

    ghost read_from = { space_in };

    ghost Is = { IsSpaceRow };

    ghost Fits = { SpaceFits };

    ghost long = { space_long };

    fn size() -> usize {
        40
    }

    fn put(&self, into: &mut [u8], at: usize) {
        put(into, at, &space_array(self));
    }

    fn read(alloc: Global, bytes: &[u8]) -> Result<Option<Space>, AllocError> {
        let _alloc = alloc; // proof
        let size = read_u64(bytes, 0);
        if size == 0 {
            return Ok(None);
        }
        let count = usize::from(bytes[17]).min(16);
        Ok(Some(Space {
            size,
            birth: read_u64(bytes, 8),
            given: bytes[16] == 1,
            handles: NamespaceHandles::of_slice(&bytes[24..24 + count]),
        }))
    }
}

/// The row of a namespace: size 0+8; birth 8+8; whether the list was given 16+1; its length 17+1; the list 24+16.
#[tactic(auto, unfolding(crate::specs::Rows::space_bytes))]
fn space_array(space: &Option<Space>) -> [u8; 40]
    requires { IsSpaceRow space.now }
    ensures value { result ≡ space_bytes space.now }
    ensures fit { SpaceFits space.now }
{
    let mut row = [0; 40];
    match space {
        None => {}
        Some(space) => {
            let size = space.size;
            let birth = space.birth;
            let handles = space.handles.as_slice();
            put(&mut row, 0, &size.to_le_bytes());
            put(&mut row, 8, &birth.to_le_bytes());
            put(&mut row, 16, &[u8::from(space.given)]);
            put(&mut row, 17, &[handles.len() as u8]);
            put(&mut row, 24, handles);
        }
    }
    row
}
