//! The page list of a namespace.

ghost use Rattle.std.specs.Prelude.{◌≡◌, ℕ, IfOk, None, length};
ghost use Rattle.fdp_state.specs.Parts.{row};

use std::alloc::{AllocError, Global};

/// The page list of so many blocks that have no page.
#[tactic(auto, using(crate::proofs::Filling::blank_none, crate::proofs::Filling::blank_more))]
pub fn blank_list(alloc: Global, size: u64) -> Result<Vec<Option<u32>>, AllocError>
    ensures size { IfOk result (λ v. length v.items ≡ size) }
    ensures rows { IfOk result (λ v. (lba : ℕ) → row v.items lba ≡ None) }
{
    let mut list = Vec::new(alloc);
    for lba in 0..size {
        let _lba = lba; // proof
        list.push(None)?;
    }
    Ok(list)
}
