ghost use Rattle.std.specs.Prelude.{◌≡◌, ◌≤◌, ◌<◌, [], IfOk, IsTrue, List, ℕ};
ghost use Rattle.fdp_base.specs.declared.command.Command.TheVariants as commands;
ghost use Rattle.fdp_base.specs.declared.command.Write.{Write};
ghost use Rattle.fdp_base.specs.declared.entry.Entry.{Entry};
ghost use Rattle.fdp_base.specs.declared.entry.Entry.TheVariants as entries;
ghost use Rattle.fdp_base.specs.declared.entry.Reply.{Reply};
ghost use Rattle.fdp_base.specs.Config.{IsValidConfig};
ghost use Rattle.fdp_base.specs.Placement.{geometry_of};
ghost use Rattle.fdp_book.specs.Book.{point_in, state_in};
ghost use Rattle.fdp_book.specs.Changes.{CanBeSaved, IsChangeOfEntry};
ghost use Rattle.fdp_book.specs.Relocating.{MovesPass};
ghost use Rattle.fdp_book.specs.Steps.{IsReady};
ghost use Rattle.fdp_book.specs.Tickets.{IsTicketOf};
ghost use Rattle.fdp_durability.specs.fdp_pages.PageTables.{passes_at};
ghost use Rattle.fdp_durability.specs.fdp_readings.Changes.{completed};
ghost use Rattle.fdp_durability.specs.fdp_saving.Saver.{first_saver};
ghost use Rattle.fdp_keeper.specs.Keeper.{CanSave, KeepsDrive, KeepsEntry, KeepsSettled};
ghost use Rattle.fdp_outline.specs.declared.moved_block.MovedBlock.{MovedBlock};
ghost use Rattle.fdp_passes.specs.declared.due.Due.TheVariants.{Move};
ghost use Rattle.fdp_passes.specs.Due.{IsDue};
ghost use Rattle.fdp_records.specs.Borrowed.{change_of};
ghost use Rattle.fdp_records.specs.Limits.{is_within_limits};
ghost use Rattle.fdp_rules.specs.PlainState.{Going};
ghost use Rattle.fdp_rules.specs.Sites.{moved_blocks};
ghost use Rattle.fdp_rules.specs.Step.{IsHandle, MaySucceed};

use crate::change_room::ChangeRoom;
use crate::firm::{firm_renewed, firm_saved};
use crate::saved_move::save_move;
use crate::saving::{checkpoint, save, settle};
use arrayvec::ArrayVec;
use fdp_base::{Command, DriveConfig};
use fdp_book::{Book, Ticket, lists_of};
use fdp_durability::{Saved, Saver};
use fdp_flash::{Flash, Wrote};
use fdp_records::ChangeRef;
use std::alloc::{AllocError, Global};
use std::marker::Model;

/// What saves a drive: the saver of its system areas, room for what a move names, and what is known to stay.
#[derive(Drop)]
pub struct Keeper {
    saver: Saver,
    room: ChangeRoom,
    /// How many entries of the history no stop loses.
    firm: u64,
}

impl Model for Keeper {
    ghost use Rattle.fdp_keeper.specs.Keeper.{KeeperSeen};
    ghost use Rattle.fdp_keeper.specs.Ready.{IsReady};

    ghost Value = { KeeperSeen };

    ghost view = { λ k. record { saver = k.saver; firm = k.firm } };

    ghost invariant = { λ k. IsReady k.room };
}

impl Keeper {
    /// The keeper of a drive as its configuration makes it, over a flash without a sealed area.
    pub fn fresh(alloc: Global, config: &DriveConfig) -> Result<Keeper, AllocError>
        requires { IsValidConfig config.now }
        ensures saver { IfOk result (λ k. k.saver ≡ first_saver (geometry_of config.now) 1 0) }
        ensures firm { IfOk result (λ k. k.firm ≡ 0) }
    {
        let saver = Saver::fresh(alloc, &config.geometry())?;
        let room = ChangeRoom::new(alloc)?;
        Ok(Keeper {
            saver,
            room,
            firm: 0,
        })
    }

    /// The keeper of a drive that was found, with the current area and its epoch.
    pub fn found(
        alloc: Global,
        config: &DriveConfig,
        area: u8,
        epoch: u64,
    ) -> Result<Keeper, AllocError>
        requires config { IsValidConfig config.now }
        requires area { area ≤ 1 }
        ensures saver { IfOk result (λ k. k.saver ≡ first_saver (geometry_of config.now) area epoch) }
        ensures firm { IfOk result (λ k. k.firm ≡ 0) }
    {
        let saver = Saver::found(alloc, &config.geometry(), area, epoch)?;
        let room = ChangeRoom::new(alloc)?;
        Ok(Keeper {
            saver,
            room,
            firm: 0,
        })
    }

    /// How many entries of the history no stop loses.
    pub fn firm(&self) -> u64
        ensures { result ≡ self.now.firm }
    {
        self.firm
    }

    /// Whether a checkpoint has to be done before the next record: as long no data unit may be erased.
    pub fn is_in_doubt(&self) -> bool
        ensures { result ≡ self.now.saver.in_doubt }
    {
        self.saver.is_in_doubt()
    }

    /// Writes a checkpoint of the drive of a book.
    pub fn checkpoint<F: Flash>(&mut self, flash: &mut F, book: &Book) -> Wrote
        requires { CanSave book.now self.old (F.state flash.old) }
        ensures { KeepsDrive book.now self.old self.new (F.state flash.old) (F.state flash.new) result }
    {
        let wrote = checkpoint(&mut self.saver, flash, book);
        self.firm = firm_renewed(true, book, self.firm, wrote);
        wrote
    }

    /// Writes a checkpoint where there is a doubt.
    pub fn settle<F: Flash>(&mut self, flash: &mut F, book: &Book) -> Wrote
        requires { CanSave book.now self.old (F.state flash.old) }
        ensures { KeepsSettled book.now self.old self.new (F.state flash.old) (F.state flash.new) result }
    {
        let wanted = self.saver.is_in_doubt();
        let wrote = settle(&mut self.saver, flash, book);
        self.firm = firm_renewed(wanted, book, self.firm, wrote);
        wrote
    }

    /// Saves a going write that may succeed.
    pub fn save_write<F: Flash>(&mut self, flash: &mut F, book: &Book, ticket: &Ticket) -> Saved
        requires can { CanSave book.now self.old (F.state flash.old) }
        requires ready { IsReady book.now ticket.now }
        requires may { (g : Going) → IsTicketOf (state_in book.now) ticket.now g → MaySucceed book.now.config (point_in book.now) g }
        ensures { (g : Going) (w : Write) (reply : Reply) (moment : ℕ) → IsTicketOf (state_in book.now) ticket.now g → g.command ≡ commands.Write w → IsTrue reply.applied → KeepsEntry book.now (completed ticket.now.queue ticket.now.number (commands.Write w) reply moment) self.old self.new (F.state flash.old) (F.state flash.new) result }
    {
        let mut numbers = ArrayVec::new();
        let change = book.change_of_write(ticket, &mut numbers);
        self.save(flash, book, change)
    }

    /// Saves a command other than a write that may take effect.
    pub fn save_command<F: Flash>(&mut self, flash: &mut F, book: &Book, command: &Command) -> Saved
        requires can { CanSave book.now self.old (F.state flash.old) }
        requires may { CanBeSaved book.now command.now }
        ensures { (queue number : ℕ) (reply : Reply) (moment : ℕ) → IsTrue reply.applied → KeepsEntry book.now (completed queue number command.now reply moment) self.old self.new (F.state flash.old) (F.state flash.new) result }
    {
        let lists = lists_of(book, command);
        let change = book.change_of_command(&lists, command);
        self.save(flash, book, change)
    }

    /// Saves that a handle is left without a unit in a group.
    pub fn save_shut<F: Flash>(&mut self, flash: &mut F, book: &Book, rg: u16, ruh: u8) -> Saved
        requires can { CanSave book.now self.old (F.state flash.old) }
        requires handle { IsHandle book.now.config (point_in book.now) rg ruh }
        ensures { KeepsEntry book.now (entries.Shut (record { rg = rg; ruh = ruh })) self.old self.new (F.state flash.old) (F.state flash.new) result }
    {
        book.known(); // proof
        self.save(flash, book, ChangeRef::Shut { rg, ruh })
    }

    /// Saves the move that is due in a group and makes it in the book, whatever the answer. Where it moves no block nothing is saved.
    pub fn save_move<F: Flash>(&mut self, flash: &mut F, book: &mut Book, rg: u16) -> Saved
        requires can { CanSave book.old self.old (F.state flash.old) }
        requires group { rg < book.old.config.groups }
        requires room { 0 < book.old.room }
        requires may { IsTrue book.old.may_move }
        requires due { IsDue (passes_at book.old.pages rg) book.old.pages.units book.old.pages.owners rg Move }
        ensures moved { MovesPass book.old book.new rg }
        ensures some { (moved_blocks (point_in book.old) rg ≡ [] → ⊥) → KeepsEntry book.old (entries.Moved (record { rg = rg; blocks = moved_blocks (point_in book.old) rg })) self.old self.new (F.state flash.old) (F.state flash.new) result }
        ensures none { moved_blocks (point_in book.old) rg ≡ [] → (result ≡ Saved.Done) × (self.new ≡ self.old) × (flash.new ≡ flash.old) }
    {
        let entries = book.entries().len();
        let saved = save_move(&mut self.saver, &mut self.room, flash, book, rg);
        match saved {
            None => Saved::Done,
            Some(saved) => {
                self.firm = firm_saved(entries, self.firm, saved);
                saved
            }
        }
    }

    /// Saves a change of the drive of a book.
    fn save<F: Flash>(&mut self, flash: &mut F, book: &Book, change: ChangeRef<'_>) -> Saved
        requires limits { IsTrue (is_within_limits (change_of change)) }
        requires can { CanSave book.now self.old (F.state flash.old) }
        ensures { (e : Entry) (moved : List MovedBlock) → IsChangeOfEntry book.now.config (point_in book.now) e (change_of change.entry) moved → KeepsEntry book.now e self.old self.new (F.state flash.old) (F.state flash.new) result }
    {
        let saved = save(&mut self.saver, flash, book, change);
        self.firm = firm_saved(book.entries().len(), self.firm, saved);
        saved
    }
}
