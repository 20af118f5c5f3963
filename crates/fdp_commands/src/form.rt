ghost use Rattle.std.specs.Prelude.{◌≡◌, ◌*◌, Decides, length};
ghost use Rattle.fdp_base.specs.CommandKinds.{IsPayloadOf, IsWellFormed};

use fdp_base::{
    Command, DriveConfig, MOST_ENTRY_BLOCKS, MOST_ENTRY_EVENT_TYPES, MOST_ENTRY_PIDS,
    MOST_ENTRY_RANGES, Payload,
};

/// Whether a queue entry can hold a command.
pub fn is_well_formed(config: &DriveConfig, command: &Command) -> bool
    ensures { Decides result (IsWellFormed config.now command.now) }
{
    match command {
        Command::Write(write) => {
            1 <= write.count
                && write.count <= MOST_ENTRY_BLOCKS
                && is_payload_of(config, write.count, &write.payload)
        }
        Command::Read(read) => 1 <= read.count && read.count <= MOST_ENTRY_BLOCKS,
        Command::Zero(zero) => 1 <= zero.count && zero.count <= MOST_ENTRY_BLOCKS,
        Command::Dealloc(dealloc) => {
            1 <= dealloc.ranges.as_slice().len()
                && dealloc.ranges.as_slice().len() <= MOST_ENTRY_RANGES
        }
        Command::Flush(_) => true,
        Command::Delete(_) => true,
        Command::Status(status) => 1 <= status.dwords,
        Command::Update(update) => {
            1 <= update.pids.as_slice().len() && update.pids.as_slice().len() <= MOST_ENTRY_PIDS
        }
        Command::Log(log) => 1 <= log.dwords,
        Command::SetFdp(_) => true,
        Command::GetFdp(_) => true,
        Command::SetEvents(set) => set.types.as_slice().len() <= MOST_ENTRY_EVENT_TYPES,
        Command::Create(create) => create.given || create.list.as_slice().is_empty(),
        Command::Other(_) => true,
    }
}

/// Whether a payload has the bytes of so many blocks.
fn is_payload_of(config: &DriveConfig, count: u32, payload: &Payload) -> bool
    ensures { Decides result (IsPayloadOf config.now count payload.now) }
{
    match payload {
        Payload::Pattern(_) => true,
        Payload::Bytes(bytes) => {
            bytes.as_slice().len() as u64 == u64::from(count) * u64::from(config.block)
        }
    }
}
