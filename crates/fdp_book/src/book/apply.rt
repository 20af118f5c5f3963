ghost use Rattle.std.specs.Prelude.{◌≡◌, ◌⊎◌, ◌*◌, [], None, replicate};
ghost use Rattle.fdp_base.specs.declared.status.TheConstants.Status as statuses;
ghost use Rattle.fdp_book.specs.Applying.{MayChange, StandBehind};
ghost use Rattle.fdp_book.specs.Book.{state_in};
ghost use Rattle.fdp_book.specs.Commanded.{AppliesTo, MayTakeEffect, applied_reply};
ghost use Rattle.fdp_book.specs.Room.{places_made, room_for};
ghost use Rattle.fdp_book.specs.Steps.{Completes};
ghost use Rattle.fdp_book.specs.declared.log.TheConstants.{MOST_STEP_ENTRIES};

use super::Book;
use super::clearing::{clear_blocks, clear_ranges};
use super::end::push_host;
use super::namespaces::{create_namespace, delete_namespace};
use super::setting::set_placement;
use super::updating::update_handles;
use crate::changes::lists::lists_of;
use crate::room::Room;
use crate::tables::{Tables, make};
use crate::ticket::Done;
use fdp_base::{Command, DriveConfig, Status, Zero};
use fdp_map::PageList;

impl Book {
    /// The change of a command other than a write is made, which is saved. It is answered with success, or with Write Fault where its saving
    /// failed. A zeroing and a deallocation take a step for each block that they name, an update for each placement identifier, a deletion
    /// for each place of the namespace and each page of the writes to it, a placement setting for each handle of each group, a creation a
    /// constant number; none takes memory. Whether the answer may follow is for the caller to say.
    pub fn apply(
        &mut self,
        queue: u8,
        number: u16,
        command: Command,
        room: Room,
        status: Status,
        moment: u64,
    ) -> Done
        requires may { MayTakeEffect self.old queue command }
        requires memory { room ≡ room_for command self.old.config }
        requires status { (status ≡ statuses.SUCCESS) ⊎ (status ≡ statuses.WRITE_FAULT) }
        requires room { self.old.room ≡ MOST_STEP_ENTRIES }
        ensures step { Completes self.old self.new [] queue number command (applied_reply (state_in self.old) command status) moment result }
        ensures pages { AppliesTo self.old.config command self.old.pages self.new.pages }
    {
        let dword0 = self.dword0_of(&command, status);
        let _ = self.log.position(); // proof: the sums are small
        let lists = lists_of(self, &command);
        let change = self.change_of_command(&lists, &command);
        let (places, replies) = room.into_places(status, dword0, true);
        make_change(&mut self.tables, &self.config, &command, places);
        // The outline is last: until then the namespaces are looked up as they were.
        make(&mut self.tables.outline, &self.config, change, &[]);
        push_host(&mut self.log, queue, number, command, replies, moment)
    }
}

/// Makes the change of a command that is saved, but for the outline. A namespace that it creates has these places of its blocks.
fn make_change(tables: &mut Tables, config: &DriveConfig, command: &Command, places: PageList)
    requires may { MayChange config.now tables.old command.now }
    requires places { places ≡ replicate (places_made command.now (config.now.groups * config.now.units * config.now.unit_pages)) None }
    ensures behind { StandBehind config.now command.now tables.old tables.new }
    ensures outline { tables.new.outline ≡ tables.old.outline }
    ensures pages { AppliesTo config.now command.now tables.old.pages tables.new.pages }
{
    match command {
        Command::Zero(zero) => {
            let Zero { nsid, slba, count } = *zero;
            clear_blocks(&mut tables.map, &mut tables.pages, nsid, slba, count);
        }
        Command::Dealloc(dealloc) => {
            let ranges = dealloc.ranges.as_slice();
            clear_ranges(&mut tables.map, &mut tables.pages, dealloc.nsid, ranges);
        }
        Command::Delete(delete) => delete_namespace(tables, delete.nsid),
        Command::Update(update) => {
            let pids = update.pids.as_slice();
            update_handles(tables, config, update.nsid, pids);
        }
        Command::SetFdp(set) => set_placement(tables, config, set.enable, set.index),
        Command::Create(create) => create_namespace(tables, create, places),
        // Which events are kept stands in no table of these.
        Command::SetEvents(_) => {}
        // A write is committed, and the others change nothing.
        Command::Write(_)
        | Command::Read(_)
        | Command::Flush(_)
        | Command::Status(_)
        | Command::Log(_)
        | Command::GetFdp(_)
        | Command::Other(_) => unreachable!(),
    }
}
