ghost use Rattle.fdp_base.specs.CommandKinds.{is_write};
ghost use Rattle.fdp_base.specs.Numbers.{with_at};
ghost use Rattle.fdp_base.specs.declared.command.Command.TheVariants as commands;
ghost use Rattle.fdp_plain_effects.specs.Ready.{HasSpace, IsAsAsked, IsReady};
ghost use Rattle.fdp_plain_effects.specs.Rows.{KeepsRows};
ghost use Rattle.fdp_rules.specs.Change.{completed_in, is_media_error, is_status};
ghost use Rattle.fdp_rules.specs.Effect.{effect_of};
ghost use Rattle.fdp_tables.specs.Sound.{IsSound};
ghost use Rattle.fdp_tables.specs.State.{plain_of};
ghost use Rattle.std.specs.Prelude.{◌≡◌, ℕ, ◌<◌, ◌∷◌, ◌==◌, ◌&&◌, ◌||◌, Bool, List, None, true, length, if◌then◌else◌};
ghost use Rattle.std.specs.Vec.{vec_capacity, vec_len};

use crate::blocks::{deallocate, delete_namespace, zero_blocks};
use crate::create::create;
use crate::feature::{set_events, set_fdp};
use crate::going::set_going;
use crate::update::update_handles;
use crate::write::write_blocks;
use fdp_base::{Command, Create, Reply, Status};
use fdp_tables::{Kept, MadeBlock, Space, is_write};

/// What a completed command leaves: its change where that is made, no write going in its queue after a write, and the
/// moment of a media error.
pub(crate) fn complete(
    kept: &mut Kept,
    queue: u8,
    command: &Command,
    reply: &Reply,
    moment: u64,
    blocks: Vec<Option<MadeBlock>>,
    space: Option<Space>,
)
    requires sound { IsSound kept.old }
    requires queue { queue < length kept.old.going.items }
    requires effect { reply.now.applied ≡ true → IsReady kept.old queue command.now blocks.items space }
    requires moments { vec_len kept.old.media < vec_capacity kept.old.media }
    ensures state { plain_of kept.new ≡ completed_in kept.old.config (plain_of kept.old) queue command.now reply.now moment }
    ensures rest { kept.new ≡ record kept.old { enabled = kept.new.enabled; index = kept.new.index; generation = kept.new.generation; reports = kept.new.reports; spaces = kept.new.spaces; references = kept.new.references; going = kept.new.going; media = kept.new.media } }
    ensures rows { KeepsRows kept.old kept.new }
{
    change_if(kept, reply.applied, queue, command, blocks, space);
    end_write(kept, queue, command);
    note_error(kept, reply.status, moment);
}

/// The change of a command, if it is made.
fn change_if(
    kept: &mut Kept,
    applied: bool,
    queue: u8,
    command: &Command,
    blocks: Vec<Option<MadeBlock>>,
    space: Option<Space>,
)
    requires sound { IsSound kept.old }
    requires effect { applied ≡ true → IsReady kept.old queue command.now blocks.items space }
    ensures state { plain_of kept.new ≡ (if applied then effect_of kept.old.config (plain_of kept.old) queue command.now else plain_of kept.old) }
    ensures rest { kept.new ≡ record kept.old { enabled = kept.new.enabled; index = kept.new.index; generation = kept.new.generation; reports = kept.new.reports; spaces = kept.new.spaces; references = kept.new.references } }
    ensures rows { KeepsRows kept.old kept.new }
{
    if applied {
        take_effect(kept, queue, command, blocks, space);
    }
}

/// No write is going in a queue after the completion of one.
fn end_write(kept: &mut Kept, queue: u8, command: &Command)
    requires { queue < length kept.old.going.items }
    ensures state { plain_of kept.new ≡ record (plain_of kept.old) { going = if is_write command.now then with_at (plain_of kept.old).going queue None else (plain_of kept.old).going } }
    ensures rest { kept.new ≡ record kept.old { going = kept.new.going } }
    ensures rows { KeepsRows kept.old kept.new }
{
    if is_write(command) {
        set_going(kept, queue, None);
    }
}

/// The moment of a media error is kept.
fn note_error(kept: &mut Kept, status: Status, moment: u64)
    requires { vec_len kept.old.media < vec_capacity kept.old.media }
    ensures state { plain_of kept.new ≡ record (plain_of kept.old) { media = if is_media_error status then moment ∷ (plain_of kept.old).media else (plain_of kept.old).media } }
    ensures rest { kept.new ≡ record kept.old { media = kept.new.media } }
    ensures rows { KeepsRows kept.old kept.new }
{
    if is_error(status) {
        kept.media.push_reserved(moment);
    }
}

/// The change of a command of a queue. The blocks of a write and a created namespace were made for it.
#[tactic(auto, unfolding(fdp_rules::specs::Effect::effect_of))]
fn take_effect(
    kept: &mut Kept,
    queue: u8,
    command: &Command,
    blocks: Vec<Option<MadeBlock>>,
    space: Option<Space>,
)
    requires sound { IsSound kept.old }
    requires ready { IsReady kept.old queue command.now blocks.items space }
    ensures state { plain_of kept.new ≡ effect_of kept.old.config (plain_of kept.old) queue command.now }
    ensures rest { kept.new ≡ record kept.old { enabled = kept.new.enabled; index = kept.new.index; generation = kept.new.generation; reports = kept.new.reports; spaces = kept.new.spaces; references = kept.new.references } }
    ensures rows { KeepsRows kept.old kept.new }
{
    match command {
        Command::Write(write) => write_blocks(kept, write.nsid, write.slba, blocks),
        Command::Read(_) => {}
        Command::Zero(zero) => zero_blocks(kept, zero.nsid, zero.slba, zero.count),
        Command::Dealloc(dealloc) => deallocate(kept, dealloc),
        Command::Flush(_) => {}
        Command::Delete(delete) => delete_namespace(kept, delete.nsid),
        Command::Status(_) => {}
        Command::Update(update) => update_handles(kept, update.nsid, update.pids.as_slice()),
        Command::Log(_) => {}
        Command::SetFdp(set) => set_fdp(kept, set.enable, set.index),
        Command::GetFdp(_) => {}
        Command::SetEvents(set) => set_events(kept, set),
        Command::Create(create) => create_made(kept, create, space),
        Command::Other(_) => {}
    }
}

/// Creates a namespace that was made, under the lowest identifier that none has.
#[tactic(auto, unfolding(fdp_rules::specs::Effect::effect_of))]
fn create_made(kept: &mut Kept, asked: &Create, space: Option<Space>)
    requires { HasSpace kept.old space }
    ensures state { (queue : ℕ) → IsAsAsked kept.old asked.now.size asked.now.given asked.now.list space → plain_of kept.new ≡ effect_of kept.old.config (plain_of kept.old) queue (commands.Create asked.now) }
    ensures rest { kept.new ≡ record kept.old { spaces = kept.new.spaces } }
    ensures rows { KeepsRows kept.old kept.new }
{
    if let Some(space) = space {
        if let Some(nsid) = kept.lowest_free() {
            create(kept, nsid, space);
        }
    }
}

/// Whether a status tells of a media error.
fn is_error(status: Status) -> bool
    ensures { result ≡ is_media_error status }
{
    is_same(status, Status::WRITE_FAULT) || is_same(status, Status::UNRECOVERED_READ_ERROR)
}

fn is_same(a: Status, b: Status) -> bool
    ensures { result ≡ is_status a b }
{
    a.sct == b.sct && a.sc == b.sc
}
