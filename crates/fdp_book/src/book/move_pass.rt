ghost use Rattle.std.specs.Prelude.{◌≡◌, ◌<◌, ◌≤◌, [], IfSome, IsSome, IsTrue, length, option_map, vec_capacity, vec_len};
ghost use Rattle.fdp_book.specs.Moving.{CanMove, HasPage, HasPageAt, IsMoved, MovesCopies, MovesCopy, NamesCopy, PutsPageAt, SharesCut, StaysIn, moved_to};
ghost use Rattle.fdp_book.specs.Outlined.{CanMakeMove, MakesMove};
ghost use Rattle.fdp_book.specs.Relocating.{IsMoveChange, MovesPass};
ghost use Rattle.fdp_book.specs.Saving.{AreSmall};
ghost use Rattle.fdp_records.specs.Borrowed.{change_of};
ghost use Rattle.fdp_book.specs.Taking.{IsPageIn};
ghost use Rattle.fdp_map.specs.MapTable.{mapped_at, size_in, with_mapped};
ghost use Rattle.fdp_owners.specs.OwnerTable.{owner_at};
ghost use Rattle.fdp_readings.specs.fdp_pages.PageTables.{copies_at, is_under_way, passes_at};
ghost use Rattle.fdp_passes.specs.declared.due.Due.TheVariants.{Move};
ghost use Rattle.fdp_passes.specs.Due.{IsDue};
ghost use Rattle.fdp_readings.specs.fdp_trails.Moves.{AreMovable, name_of, names_of};
ghost use Rattle.fdp_units.specs.UnitTable.{IsGroup};

use super::Book;
use crate::flight::Flight;
use crate::tables::{Tables, count, make};
use fdp_base::{BlockName, BlockNames, DataSpare, DriveConfig, Entry, Moved, Spot};
use fdp_map::Map;
use fdp_outline::{MovedBlock, Outline};
use fdp_owners::{Holder, Owner};
use fdp_records::ChangeRef;

impl Book {
    /// Moves the pass of a group: what stands at the old page of a copy stands at the new one from now on. The change by which the move is saved, and
    /// the blocks that it takes along, are given; none where it takes none. It takes a step for each copy.
    pub fn move_pass(&mut self, rg: u16, change: Option<ChangeRef<'_>>, blocks: &[MovedBlock])
        requires group { rg < self.old.config.groups }
        requires room { 0 < self.old.room }
        requires may { IsTrue self.old.may_move }
        requires due { IsDue (passes_at self.old.pages rg) self.old.pages.units self.old.pages.owners rg Move }
        requires change { IsMoveChange self.old rg (option_map change_of change) blocks.now }
        ensures moved { MovesPass self.old self.new rg }
    {
        let _ = self.log.position(); // proof: the sums are small
        self.tables.pages.joined(); // proof
        let mut names = self.log.take_list();
        move_copies(&mut self.tables, rg, &mut names);
        self.tables.pages.end_move(rg);
        make_move(&mut self.tables.outline, &self.config, change, blocks);
        self.log.push(Entry::Moved(Moved {
            rg,
            blocks: BlockNames::from_vec(names),
        }));
    }
}

/// The change of a move is made in the outline; a move that is not saved only counts.
fn make_move(
    outline: &mut Outline,
    config: &DriveConfig,
    change: Option<ChangeRef<'_>>,
    blocks: &[MovedBlock],
)
    requires small { AreSmall outline.old.totals }
    requires can { CanMakeMove config.now (option_map change_of change) blocks.now outline.old }
    ensures { MakesMove config.now (option_map change_of change.entry) blocks.now outline.old outline.new }
{
    match change {
        Some(change) => make(outline, config, change, blocks),
        None => count(outline, 0, 0),
    }
}

/// Moves each copy of the pass under way in a group, and lists the blocks that are moved.
fn move_copies(tables: &mut Tables, rg: u16, names: &mut Vec<BlockName>)
    requires group { IsGroup tables.old.pages.units rg }
    requires pass { IsTrue (is_under_way tables.old.pages rg) }
    requires cut { SharesCut tables.old.map tables.old.pages.units }
    requires few { tables.old.pages.units.unit_pages ≤ 256 }
    requires movable { AreMovable (owner_at tables.old.pages.owners) (copies_at tables.old.pages rg) }
    requires lead { CanMove tables.old }
    requires empty { names.old.items ≡ [] }
    requires room { tables.old.pages.units.unit_pages ≤ vec_capacity names.old }
    ensures tables { MovesCopies tables.old tables.new rg (length (copies_at tables.old.pages rg)) }
    ensures names { names.new.items ≡ names_of (owner_at tables.old.pages.owners) (copies_at tables.old.pages rg) }
{
    tables.pages.joined(); // proof
    let count = tables.pages.copies(rg).len() as u32;
    for index in 0..count {
        move_copy(tables, rg, index, names);
    }
}

/// Moves a copy of the pass under way in a group. If a block stands at its old page the block is listed.
fn move_copy(tables: &mut Tables, rg: u16, index: u32, names: &mut Vec<BlockName>)
    requires group { IsGroup tables.old.pages.units rg }
    requires pass { IsTrue (is_under_way tables.old.pages rg) }
    requires copy { index < length (copies_at tables.old.pages rg) }
    requires cut { SharesCut tables.old.map tables.old.pages.units }
    requires lead { CanMove tables.old }
    requires room { vec_len names.old < vec_capacity names.old }
    ensures tables { MovesCopy tables.old tables.new rg index }
    ensures names { NamesCopy tables.old rg index names.old.items names.new.items }
    ensures room { vec_capacity names.new ≡ vec_capacity names.old }
{
    tables.pages.joined(); // proof
    tables.map.placed();
    let to = tables.pages.copies(rg)[index as usize].to;
    if let Some(owner) = tables.pages.move_copy(rg, index) {
        put_owned(&mut tables.map, &mut tables.flights, owner, to);
        if let Some(name) = name_of(owner) {
            names.push_reserved(name);
        }
    }
}

/// The block that a page is kept for, if it is kept for one.
fn name_of(owner: Owner) -> Option<BlockName>
    ensures { result ≡ name_of owner }
{
    let DataSpare { nsid, lba, .. } = owner.spare;
    match owner.holder {
        Holder::Block => Some(BlockName { nsid, lba }),
        Holder::Flight(_) => None,
    }
}

/// What a page is kept for has another page.
fn put_owned(map: &mut Map, flights: &mut Vec<Option<Flight>>, owner: Owner, to: Spot)
    requires page { HasPage map.old flights.old.items owner }
    requires group { StaysIn map.old owner.holder owner.spare to }
    ensures { IsMoved map.old map.new flights.old.items flights.new.items owner to }
{
    let spare = owner.spare;
    match owner.holder {
        Holder::Block => put_block(map, spare.nsid, spare.lba, to),
        Holder::Flight(queue) => {
            let flight = &mut flights[usize::from(queue)];
            put_page(flight, spare.index, to);
        }
    }
}

/// A block stands at another page of its group.
fn put_block(map: &mut Map, nsid: u32, lba: u64, to: Spot)
    requires block { IsSome (mapped_at map.old nsid lba) }
    requires group { IfSome (mapped_at map.old nsid lba) (λ m. IsPageIn map.old.geometry m.rg to) }
    ensures blocks { mapped_at map.new ≡ with_mapped (mapped_at map.old) nsid lba (option_map (moved_to to) (mapped_at map.old nsid lba)) }
    ensures sizes { size_in map.new ≡ size_in map.old }
    ensures geometry { map.new.geometry ≡ map.old.geometry }
{
    match map.get(nsid, lba) {
        Some(_) => map.put(nsid, lba, to),
        // What is moved stands in the map.
        None => unreachable!(),
    }
}

/// A block of a going write stands at another page.
fn put_page(flight: &mut Option<Flight>, index: u16, to: Spot)
    requires { HasPageAt flight.old index }
    ensures { PutsPageAt flight.old flight.new index to }
{
    match flight {
        Some(flight) => {
            let pages = flight.pages.as_mut_slice();
            pages[usize::from(index)] = to;
        }
        // It belongs to a write that is going.
        None => unreachable!(),
    }
}
