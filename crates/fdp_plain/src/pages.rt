ghost use Rattle.std.specs.Prelude.{◌≡◌, None, IfOk, replicate};
ghost use Rattle.fdp_plain.specs.Prepared.{pages_of};

use fdp_base::{Entry, Spot};
use std::alloc::{AllocError, Global};

/// How many pages an entry is to write: those of a write that it lets go.
pub(crate) fn pages_of(entry: &Entry) -> u32
    ensures { result ≡ pages_of entry.now }
{
    match entry.as_started() {
        Some(started) => started.command.blocks_written(),
        None => 0,
    }
}

/// So many pages that stand nowhere yet.
#[tactic(auto, using(std::proofs::lemmas::List::replicate_more))]
pub(crate) fn no_pages(alloc: Global, count: u32) -> Result<Vec<Option<Spot>>, AllocError>
    ensures { IfOk result (λ pages. pages.items ≡ replicate count None) }
{
    let mut pages = Vec::new(alloc);
    for _ in 0..count {
        pages.push(None)?;
    }
    Ok(pages)
}
