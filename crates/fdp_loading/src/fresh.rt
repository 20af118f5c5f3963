ghost use Rattle.std.specs.Prelude.{IfOk};
ghost use Rattle.fdp_base.specs.Config.{IsValidConfig};
ghost use Rattle.fdp_loading.specs.Made.{IsFreshDrive};

use crate::loaded::Loaded;
use fdp_base::DriveConfig;
use fdp_keeper::{Book, Keeper};
use std::alloc::{AllocError, Global};

/// A drive as its configuration makes it, before it is saved.
pub fn fresh(alloc: Global, config: &DriveConfig) -> Result<Loaded, AllocError>
    requires { IsValidConfig config.now }
    ensures { IfOk result (λ made. IsFreshDrive config.now made.book made.keeper) }
{
    let book = Book::fresh(alloc, config)?;
    book.known(); // proof
    let keeper = Keeper::fresh(alloc, config)?;
    Ok(Loaded { book, keeper })
}
