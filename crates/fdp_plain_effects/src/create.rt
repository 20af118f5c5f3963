ghost use Rattle.fdp_base.specs.declared.command.Command.TheVariants as commands;
ghost use Rattle.fdp_rules.specs.Effect.{created, effect_of, lowest_free};
ghost use Rattle.fdp_tables.specs.State.{namespace_of, plain_of, row};
ghost use Rattle.std.specs.Prelude.{◌≡◌, ℕ, ◌<◌, Bool, List, Some, None, length};

use crate::blocks::set_space;
use fdp_tables::{Kept, Space};

/// Creates a namespace that was made for it, under the lowest identifier that none has.
pub(crate) fn create(kept: &mut Kept, nsid: u32, space: Space)
    requires free { lowest_free (plain_of kept.old) ≡ Some nsid }
    requires row { nsid < length kept.old.spaces.items }
    requires empty { (lba : ℕ) → row space.blocks lba ≡ None }
    ensures state { (queue size : ℕ) (given : Bool) (list : List ℕ) → namespace_of space ≡ created (plain_of kept.old) size given list → plain_of kept.new ≡ effect_of kept.old.config (plain_of kept.old) queue (commands.Create (record { size = size; given = given; list = list })) }
    ensures rest { kept.new ≡ record kept.old { spaces = kept.new.spaces } }
    ensures rows { length kept.new.spaces.items ≡ length kept.old.spaces.items }
{
    set_space(kept, nsid, Some(space));
}
