ghost use Rattle.fdp_base.specs.declared.command.Command.TheVariants as commands;
ghost use Rattle.fdp_commands.specs.Targets.{target_at};
ghost use Rattle.fdp_rules.specs.Effect.{effect_of, is_partly_written, updated_at, updated_by};
ghost use Rattle.fdp_tables.specs.Sound.{IsSound};
ghost use Rattle.fdp_tables.specs.State.{plain_of};
ghost use Rattle.std.specs.Prelude.{◌≡◌, ℕ, ◌*◌, length};

use crate::entries::set_reference;
use fdp_commands::{Destination, named_by};
use fdp_tables::{Kept, Standing};

/// Updates the handles that placement identifiers name, one after another: each closes its unit where that is
/// partly written.
pub(crate) fn update_handles(kept: &mut Kept, nsid: u32, pids: &[u16])
    requires { IsSound kept.old }
    ensures state { (queue mo : ℕ) → plain_of kept.new ≡ effect_of kept.old.config (plain_of kept.old) queue (commands.Update (record { nsid = nsid; mo = mo; pids = pids.now })) }
    ensures rest { kept.new ≡ record kept.old { references = kept.new.references } }
    ensures rows { length kept.new.references.items ≡ length kept.old.references.items }
{
    for pid in pids {
        update_one(kept, nsid, *pid);
    }
}

/// Updates the handle that a placement identifier names.
fn update_one(kept: &mut Kept, nsid: u32, pid: u16)
    requires { IsSound kept.old }
    ensures state { plain_of kept.new ≡ record (plain_of kept.old) { references = updated_by kept.old.config (plain_of kept.old) nsid (plain_of kept.old).references pid } }
    ensures rest { kept.new ≡ record kept.old { references = kept.new.references } }
    ensures rows { length kept.new.references.items ≡ length kept.old.references.items }
{
    if let Some(target) = named_by(&Standing::new(kept), nsid, pid) {
        close(kept, &target);
    }
}

/// Closes the unit of a handle where that is partly written.
fn close(kept: &mut Kept, target: &Destination)
    ensures state { plain_of kept.new ≡ record (plain_of kept.old) { references = updated_at kept.old.config (plain_of kept.old).references (target_at target.now) } }
    ensures rest { kept.new ≡ record kept.old { references = kept.new.references } }
    ensures rows { length kept.new.references.items ≡ length kept.old.references.items }
{
    let reference = kept.reference(target.rg, u16::from(target.ruh));
    if kept.is_partly_written(&reference) {
        let none = kept.no_reference();
        set_reference(kept, target.rg, u16::from(target.ruh), none);
    }
}
