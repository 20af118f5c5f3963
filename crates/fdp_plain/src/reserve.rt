ghost use Rattle.std.specs.Prelude.{◌≡◌, OnOk, map};
ghost use Rattle.std.specs.Vec.{vec_items};
ghost use Rattle.fdp_plain_trail.specs.Places.{HasCopyRoom, HasGroupOf};
ghost use Rattle.fdp_plain.specs.Reserved.{HasCopyGroup, HasCopySpare, HasSpare, IsSame};

use fdp_base::Entry;
use fdp_tables::Kept;
use std::alloc::AllocError;

/// Makes spare room for an entry and for so many events, in all lists that grow with an entry. They hold what they held.
pub(crate) fn reserve(kept: &mut Kept, entry: &Entry, events: usize) -> Result<(), AllocError>
    requires { HasCopyGroup kept.old entry.now }
    ensures same { IsSame kept.old kept.new }
    ensures spare { OnOk result (HasSpare kept.new entry.now events) }
{
    reserve_copy(kept, entry)?;
    kept.entries.reserve(1)?;
    kept.events.reserve(events)?;
    kept.media.reserve(1)?;
    kept.sites.reserve()?;
    Ok(())
}

/// Makes room for one more copy in the group of a copied page.
fn reserve_copy(kept: &mut Kept, entry: &Entry) -> Result<(), AllocError>
    requires { HasCopyGroup kept.old entry.now }
    ensures copies { map vec_items kept.new.copies.items ≡ map vec_items kept.old.copies.items }
    ensures rest { kept.new ≡ record kept.old { copies = kept.new.copies } }
    ensures spare { OnOk result (HasCopySpare kept.new entry.now) }
{
    match entry {
        Entry::Copied(copied) => reserve_in(kept, copied.from.unit),
        Entry::Host(_) => Ok(()),
        Entry::Started(_) => Ok(()),
        Entry::Placed(_) => Ok(()),
        Entry::Moved(_) => Ok(()),
        Entry::Erased(_) => Ok(()),
        Entry::Retired(_) => Ok(()),
        Entry::Aside(_) => Ok(()),
        Entry::Shut(_) => Ok(()),
        Entry::Worn(_) => Ok(()),
        Entry::Reopened => Ok(()),
    }
}

/// Makes room for one more copy in the group of a unit.
fn reserve_in(kept: &mut Kept, unit: u32) -> Result<(), AllocError>
    requires { HasGroupOf kept.old unit }
    ensures copies { map vec_items kept.new.copies.items ≡ map vec_items kept.old.copies.items }
    ensures rest { kept.new ≡ record kept.old { copies = kept.new.copies } }
    ensures spare { OnOk result (HasCopyRoom kept.new unit) }
{
    let group = kept.group_of(unit) as usize;
    kept.copies[group].reserve(1)
}
