ghost use Rattle.fdp_base.specs.declared.command.Command.{Command};
ghost use Rattle.fdp_base.specs.declared.entry.Entry.TheVariants as entries;
ghost use Rattle.fdp_plain_effects.specs.Ready.{IsChangeReady, IsStartReady};
ghost use Rattle.fdp_plain_effects.specs.Rows.{KeepsRows};
ghost use Rattle.fdp_rules.specs.Change.{changed_by};
ghost use Rattle.fdp_tables.specs.Sound.{IsSound};
ghost use Rattle.fdp_tables.specs.State.{plain_of};
ghost use Rattle.std.specs.Prelude.{◌≡◌, ℕ, ◌<◌, Bool, length};

use crate::again::begin_again;
use crate::completed::complete;
use crate::entries::{change_placed, erase, retire, shut_handle, start, wear};
use fdp_base::Entry;
use fdp_tables::{Kept, KeptGoing, MadeBlock, Space};

/// What an entry needs memory for, made before anything changes.
#[derive(Debug, Drop)]
pub struct Made {
    /// The blocks of a write that takes effect.
    pub blocks: Vec<Option<MadeBlock>>,
    /// A namespace that is created.
    pub space: Option<Space>,
    /// A write that is let go.
    pub going: Option<KeptGoing>,
}

/// What an entry changes of the drive, but for its position. What it needs memory for was made, so it cannot fail.
#[tactic(auto, unfolding(fdp_rules::specs::Change::changed_by))]
pub fn change(kept: &mut Kept, entry: &Entry, made: Made)
    requires sound { IsSound kept.old }
    requires ready { IsChangeReady kept.old entry.now made.blocks.items made.space made.going }
    ensures state { plain_of kept.new ≡ changed_by kept.old.config (plain_of kept.old) entry.now }
    ensures rest { kept.new ≡ record kept.old { enabled = kept.new.enabled; index = kept.new.index; generation = kept.new.generation; reports = kept.new.reports; spaces = kept.new.spaces; references = kept.new.references; going = kept.new.going; lost = kept.new.lost; worn = kept.new.worn; media = kept.new.media } }
    ensures rows { KeepsRows kept.old kept.new }
{
    let Made {
        blocks,
        space,
        going,
    } = made;
    match entry {
        Entry::Host(host) => complete(
            kept,
            host.queue,
            &host.command,
            &host.reply,
            host.moment,
            blocks,
            space,
        ),
        Entry::Started(started) => start_made(kept, started.queue, going),
        Entry::Placed(placed) => change_placed(kept, placed.ticket, placed.unit),
        Entry::Copied(_) => {}
        Entry::Moved(_) => {}
        Entry::Erased(erased) => erase(kept, erased.unit),
        Entry::Retired(retired) => retire(kept, retired.unit),
        Entry::Aside(aside) => retire(kept, aside.unit),
        Entry::Shut(shut) => shut_handle(kept, shut.rg, shut.ruh),
        Entry::Worn(worn) => wear(kept, worn.rg),
        Entry::Reopened => begin_again(kept),
    }
}

/// A write that was made for it is let go in a queue.
fn start_made(kept: &mut Kept, queue: u8, going: Option<KeptGoing>)
    requires { queue < length kept.old.going.items }
    ensures state { (number : ℕ) (command : Command) (rg ruh : ℕ) (pid_valid : Bool) → IsStartReady kept.old queue number command rg ruh pid_valid going → plain_of kept.new ≡ changed_by kept.old.config (plain_of kept.old) (entries.Started (record { queue = queue; number = number; command = command; rg = rg; ruh = ruh; pid_valid = pid_valid })) }
    ensures rest { kept.new ≡ record kept.old { going = kept.new.going } }
    ensures rows { KeepsRows kept.old kept.new }
{
    if let Some(going) = going {
        start(kept, queue, going);
    }
}
