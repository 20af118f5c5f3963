ghost use Rattle.std.specs.Prelude.{◌≡◌, ◌≤◌, length, slice_get};
ghost use Rattle.fdp_outline.specs.Events.{names_of_handle};

use fdp_base::BlockName;

/// A block that a move takes along, and the handle that it was placed by.
#[derive(Clone, Copy, Debug, PartialEq, Eq)]
pub struct MovedBlock {
    pub name: BlockName,
    pub ruh: u8,
}

/// How many of the blocks are of a handle.
pub fn count_of(blocks: &[MovedBlock], ruh: u8) -> usize
    ensures value { result ≡ length (names_of_handle blocks.now ruh) }
    ensures bound { result ≤ length blocks.now }
{
    match blocks.split_first() {
        Some((block, rest)) => usize::from(block.ruh == ruh) + count_of(rest, ruh),
        None => 0,
    }
}

/// The first of the blocks that is of a handle.
pub fn first_of(blocks: &[MovedBlock], ruh: u8) -> Option<BlockName>
    ensures { result ≡ slice_get (names_of_handle blocks.now ruh) 0 }
{
    match blocks.split_first() {
        Some((block, rest)) => {
            if block.ruh == ruh {
                Some(block.name)
            } else {
                first_of(rest, ruh)
            }
        }
        None => None,
    }
}
