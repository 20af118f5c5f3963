ghost use Rattle.fdp_base.specs.CommandKinds.{IsWellFormed};
ghost use Rattle.fdp_plain_effects.specs.Making.{AreBlocksOf, IsCreated, IsSpaceOf};
ghost use Rattle.fdp_rules.specs.Change.{birth_of, started};
ghost use Rattle.fdp_tables.specs.State.{going_of, plain_of};
ghost use Rattle.std.specs.Prelude.{◌≡◌, IfOk};

use crate::write::make_blocks;
use fdp_base::{Command, HandleList};
use fdp_commands::roomiest;
use fdp_tables::{KeptGoing, MadeBlock, Space, Standing, make_space};
use std::alloc::{AllocError, Global};

/// The write that a Started entry lets go. It looks at each block of each namespace for the roomiest group.
pub fn make_going(
    kept: &Standing,
    number: u16,
    command: &Command,
    rg: u16,
    ruh: u8,
    pid_valid: bool,
) -> Result<KeptGoing, AllocError>
    ensures { IfOk result (λ going. going_of going ≡ started kept.now.config (plain_of kept.now) number command.now rg ruh pid_valid) }
{
    Ok(KeptGoing {
        number,
        command: command.copied()?,
        ticket: kept.next_position(),
        birth: birth_of(kept, command.nsid()),
        rg,
        ruh,
        pid_valid,
        roomiest: roomiest(kept),
        placed: 0,
    })
}

/// The position at which a namespace was created, 0 where it is not there.
fn birth_of(kept: &Standing, nsid: u32) -> u64
    ensures { result ≡ birth_of (plain_of kept.now) nsid }
{
    match kept.space(nsid) {
        Some(space) => space.birth,
        None => 0,
    }
}

/// The blocks of a write that takes effect; no other command has any.
pub fn make_blocks_of(
    kept: &Standing,
    alloc: Global,
    queue: u8,
    command: &Command,
) -> Result<Vec<Option<MadeBlock>>, AllocError>
    requires formed { IsWellFormed kept.now.config command.now }
    ensures { IfOk result (λ blocks. AreBlocksOf kept.now queue command.now blocks.items) }
{
    match command.as_write() {
        Some(write) => match kept.going_in(queue) {
            Some(going) => make_blocks(
                alloc,
                kept.config().block,
                &write.payload,
                write.count,
                going,
            ),
            None => Ok(Vec::new(alloc)),
        },
        None => Ok(Vec::new(alloc)),
    }
}

/// The namespace of a create; no other command has one.
pub fn make_space_of(
    kept: &Standing,
    alloc: Global,
    command: &Command,
) -> Result<Option<Space>, AllocError>
    ensures { IfOk result (λ space. IsSpaceOf kept.now command.now space) }
{
    match command {
        Command::Write(_) => Ok(None),
        Command::Read(_) => Ok(None),
        Command::Zero(_) => Ok(None),
        Command::Dealloc(_) => Ok(None),
        Command::Flush(_) => Ok(None),
        Command::Delete(_) => Ok(None),
        Command::Status(_) => Ok(None),
        Command::Update(_) => Ok(None),
        Command::Log(_) => Ok(None),
        Command::SetFdp(_) => Ok(None),
        Command::GetFdp(_) => Ok(None),
        Command::SetEvents(_) => Ok(None),
        Command::Create(create) => {
            let space = make_created(kept, alloc, create.size, create.given, &create.list)?;
            Ok(Some(space))
        }
        Command::Other(_) => Ok(None),
    }
}

fn make_created(
    kept: &Standing,
    alloc: Global,
    size: u64,
    given: bool,
    list: &HandleList,
) -> Result<Space, AllocError>
    ensures { IfOk result (λ space. IsCreated kept.now size given list.now space) }
{
    let space = make_space(alloc, size, given, list, kept.next_position())?;
    Ok(space)
}
