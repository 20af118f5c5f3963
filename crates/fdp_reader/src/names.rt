//! The blocks that a move lists.

ghost use Rattle.std.specs.Prelude.{◌≡◌};
ghost use Rattle.fdp_trace.specs.Words.{words_of};
ghost use Rattle.fdp_prints.specs.Reader.{name_in, names_in};
ghost use Rattle.fdp_reader.specs.Yielding.{Yields};

use crate::cut::{after, before};
use fdp_base::{BlockName, BlockNames};
use fdp_trace::{FaultKind, LineError, next_word, within};
use std::alloc::Global;

/// All words of a line as names of blocks.
pub fn names(alloc: Global, line: &[u8]) -> Result<BlockNames, LineError>
    ensures { Yields result (names_in (words_of line.now)) }
{
    let mut names = Vec::new(alloc);
    let mut rest = line;
    while let Some((word, others)) = next_word(rest) {
        let name = name(word)?;
        names.push(name)?;
        rest = others;
    }
    Ok(BlockNames::from_vec(names))
}

/// A namespace, a colon, an address.
#[tactic(auto, unfolding(fdp_prints::specs::Reader::name_in))]
fn name(word: &[u8]) -> Result<BlockName, FaultKind>
    ensures { result ≡ name_in word.now }
{
    let nsid = within(before(word, b':'), 0, 0xffff_ffff)?;
    let lba = within(after(word, b':'), 0, u64::MAX)?;
    Ok(BlockName {
        nsid: nsid as u32,
        lba,
    })
}
