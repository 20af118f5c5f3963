//! The way back from the pages of a state to its blocks.

ghost use Rattle.std.specs.Prelude.{◌≡◌, ◌+◌, ℕ, IfOk};
ghost use Rattle.fdp_base.specs.Config.{IsInRange};
ghost use Rattle.fdp_image.specs.Checkpoint.{page_in_lists};
ghost use Rattle.fdp_state.specs.Loaded.{IsDriveState};
ghost use Rattle.fdp_state.specs.Owners.{AreOwners, Pages as PagesOf, pages_before};
ghost use Rattle.fdp_state.specs.Parts.{row};

use crate::fits::data_pages;
use crate::owners::{Owner, claim, free_pages};
use crate::rows::list_at;
use fdp_base::{BlockName, DriveConfig};
use fdp_snapshot::State;
use std::alloc::{AllocError, Global};

/// Which block stands on each data page. It goes over the pages and over the blocks once.
pub fn owners_of(
    alloc: Global,
    config: &DriveConfig,
    state: &State,
) -> Result<Vec<Owner>, AllocError>
    requires config { IsInRange config.now }
    requires state { IsDriveState config.now state.now }
    ensures { IfOk result (λ v. AreOwners (page_in_lists state.now.pages) v.items) }
{
    let mut owners = free_pages(alloc, data_pages(config))?;
    for nsid in 1..17 {
        claim_list(&mut owners, nsid, list_at(state.pages.as_slice(), nsid));
    }
    Ok(owners)
}

/// Enters the pages of the blocks of a namespace.
fn claim_list(owners: &mut Vec<Owner>, nsid: u32, list: &[Option<u32>])
    ensures { (pages : PagesOf) → ((lba : ℕ) → row list.now lba ≡ pages nsid lba) → AreOwners (pages_before pages nsid 0) owners.old.items → AreOwners (pages_before pages (nsid + 1) 0) owners.new.items }
{
    for (lba, page) in list.iter().enumerate() {
        let block = BlockName {
            nsid,
            lba: lba as u64,
        };
        claim(owners, block, *page);
    }
}
