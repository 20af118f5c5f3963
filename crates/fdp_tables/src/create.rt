ghost use Rattle.fdp_rules.specs.Effect.{chosen_handles, created};
ghost use Rattle.fdp_tables.specs.Spaces.{IsMade};
ghost use Rattle.std.specs.Prelude.{◌≡◌, ◌<◌, ◌&&◌, List, None, replicate, IfOk};

use crate::blocks::Blocks;
use crate::state::Space;
use fdp_base::HandleList;
use std::alloc::{AllocError, Global};

/// A namespace of `size` absent blocks, created at this position.
#[tactic(auto, using(crate::proofs::Spaces::row_absent))]
pub fn make_space(
    alloc: Global,
    size: u64,
    given: bool,
    list: &HandleList,
    birth: u64,
) -> Result<Space, AllocError>
    ensures { IfOk result (λ space. IsMade space size given list.now birth) }
{
    Ok(Space {
        handles: chosen_handles(alloc, list)?,
        given: given && !list.as_slice().is_empty(),
        birth,
        blocks: Blocks::absent(alloc, size)?,
    })
}

/// The handles that were listed, or handle 0 where none is.
fn chosen_handles(alloc: Global, list: &HandleList) -> Result<HandleList, AllocError>
    ensures { IfOk result (λ handles. handles ≡ chosen_handles list.now) }
{
    if list.as_slice().is_empty() {
        let mut first = Vec::new(alloc);
        first.push(0)?;
        Ok(HandleList::from_vec(first))
    } else {
        list.clone()
    }
}
