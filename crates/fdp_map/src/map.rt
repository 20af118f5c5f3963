ghost use Rattle.std.specs.Prelude.{◌≡◌, ℕ, ◌+◌, ◌^◌, ◌<◌, ◌≤◌, not, ◌&&◌, ◌==◌, Decides, Some, None, Option, length, replicate, IfOk, IfSome, OnOk, OnErr, option_map};
ghost use Rattle.fdp_base.specs.Geometry.{IsWithin};
ghost use Rattle.fdp_base.specs.Numbers.{is_among, with_at};
ghost use Rattle.fdp_rules.specs.PlainState.{PlainState};
ghost use Rattle.fdp_rules.specs.Room.{stored, stored_where};
ghost use Rattle.fdp_map.specs.declared.mapped.Mapped.{Mapped as Place};
ghost use Rattle.fdp_map.specs.MapTable.{Agrees, IsCut, IsPageOf, IsPlaced, mapped_at, mapped_on, row, size_in, stored_from, stored_in, with_mapped};
ghost use Rattle.fdp_map.specs.PageLists.{data_pages, lists_of, page_at, page_of, placed_on, places_of, size_at, table_of};

use crate::counts::{count_lists, lower, raise};
use crate::lists::{PageList, empty_lists, page_in, set_page, stored_among, vacant_list};
use crate::mapped::{Mapped, number_of, placed};
use fdp_base::{Geometry, Sequence, Spot};
use std::alloc::{AllocError, Global};
use std::marker::Model;

/// Where the blocks of each namespace stand, in the form in which a checkpoint holds it.
#[derive(Debug, Drop)]
pub struct Map {
    geometry: Geometry,
    /// By identifier, sixteen from 1 on.
    lists: Vec<PageList>,
    /// How many blocks each group stores.
    counts: [u64; 16],
}

impl Model for Map {
    ghost use Rattle.fdp_map.specs.MapTable.{IsCounted, MapTable};
    ghost use Rattle.fdp_map.specs.PageLists.{table_of};

    ghost Value = { MapTable };

    ghost view = { λ m. table_of m.geometry m.lists.items };

    ghost invariant = { λ m. IsCounted (table_of m.geometry m.lists.items) m.counts };
}

impl Map {
    /// No namespace has a place.
    pub fn new(alloc: Global, geometry: Geometry) -> Result<Map, AllocError>
        requires { IsCut geometry }
        ensures geometry { IfOk result (λ m. m.geometry ≡ geometry) }
        ensures sizes { IfOk result (λ m. (nsid : ℕ) → size_in m nsid ≡ 0) }
        ensures blocks { IfOk result (λ m. (nsid lba : ℕ) → mapped_at m nsid lba ≡ None) }
    {
        let lists = empty_lists(alloc)?;
        Ok(Map {
            geometry,
            lists,
            counts: [0; 16],
        })
    }

    /// The map with these pages, sixteen lists from identifier 1 on, which it takes over. It counts them, and takes no memory.
    pub fn of_pages(lists: Vec<PageList>, geometry: Geometry) -> Map
        requires cut { IsCut geometry }
        requires rows { length lists.items ≡ 16 }
        requires sizes { (nsid : ℕ) → size_at lists.items nsid ≤ 262144 }
        requires pages { (nsid lba : ℕ) → IfSome (page_at lists.items nsid lba) (λ page. page < data_pages geometry) }
        ensures table { result ≡ table_of geometry lists.items }
        ensures sizes { (nsid : ℕ) → size_in result nsid ≡ size_at lists.items nsid }
        ensures blocks { (nsid lba : ℕ) → mapped_at result nsid lba ≡ option_map (placed_on geometry) (page_at lists.items nsid lba) }
    {
        let counts = count_lists(geometry, lists.as_slice());
        Map {
            geometry,
            lists,
            counts,
        }
    }

    /// The numbers of the pages of all blocks, sixteen lists from identifier 1 on, as a checkpoint holds them.
    pub fn pages(&self) -> &[PageList]
        ensures lists { result.now ≡ lists_of self.now }
        ensures rows { length result.now ≡ 16 }
        ensures sizes { (nsid : ℕ) → size_at result.now nsid ≡ size_in self.now nsid }
        ensures blocks { (nsid lba : ℕ) → page_at result.now nsid lba ≡ option_map (page_of self.now.geometry) (mapped_at self.now nsid lba) }
    {
        self.lists.as_slice()
    }

    /// What holds at each moment: blocks stand on pages of data units, and have the groups of those.
    pub fn placed(&self)
        ensures cut { IsCut self.now.geometry }
        ensures places { (nsid lba : ℕ) → IfSome (mapped_at self.now nsid lba) (IsPlaced self.now.geometry) }
    {
        let _ = &self.lists; // proof
    }

    /// Makes the places of a namespace without blocks. Beside `new` it is the one call that takes memory.
    pub fn add(&mut self, alloc: Global, nsid: u32, size: u64) -> Result<(), AllocError>
        requires nsid { IsWithin 1 16 nsid }
        requires size { size ≤ 262144 }
        requires absent { size_in self.old nsid ≡ 0 }
        ensures geometry { self.new.geometry ≡ self.old.geometry }
        ensures sizes { OnOk result (size_in self.new ≡ with_at (size_in self.old) nsid size) }
        ensures blocks { OnOk result (mapped_at self.new ≡ mapped_at self.old) }
        ensures err { OnErr result (self.new ≡ self.old) }
    {
        let list = vacant_list(alloc, size)?;
        self.insert(nsid, list);
        Ok(())
    }

    /// Takes over the places of a namespace without blocks. It takes a constant time, and no memory.
    pub fn insert(&mut self, nsid: u32, list: PageList)
        requires nsid { IsWithin 1 16 nsid }
        requires size { length list ≤ 262144 }
        requires vacant { list ≡ replicate (length list) None }
        requires absent { size_in self.old nsid ≡ 0 }
        ensures geometry { self.new.geometry ≡ self.old.geometry }
        ensures sizes { size_in self.new ≡ with_at (size_in self.old) nsid (length list) }
        ensures blocks { mapped_at self.new ≡ mapped_at self.old }
    {
        self.lists[nsid as usize - 1] = list;
    }

    /// Takes away the places of a namespace, with the blocks that stood there. It looks at each place.
    pub fn delete(&mut self, nsid: u32)
        requires nsid { IsWithin 1 16 nsid }
        ensures geometry { self.new.geometry ≡ self.old.geometry }
        ensures sizes { size_in self.new ≡ with_at (size_in self.old) nsid 0 }
        ensures blocks { mapped_at self.new ≡ with_at (mapped_at self.old) nsid (λ lba. None) }
    {
        self.empty(nsid);
        let alloc = *self.lists.allocator();
        self.lists[nsid as usize - 1] = Sequence::new(alloc);
    }

    /// Removes each block of a namespace.
    fn empty(&mut self, nsid: u32)
        ensures geometry { self.new.geometry ≡ self.old.geometry }
        ensures sizes { size_in self.new ≡ size_in self.old }
        ensures blocks { mapped_at self.new ≡ with_at (mapped_at self.old) nsid (λ lba. None) }
    {
        for lba in 0..self.size(nsid) {
            self.remove(nsid, lba);
        }
    }

    /// The pages of the blocks of a namespace; none where it is not there.
    fn list(&self, nsid: u32) -> &[Option<u32>]
        ensures { places_of self.now.geometry result.now ≡ row self.now nsid }
    {
        let _ = &self.lists; // proof
        if nsid == 0 {
            return &[];
        }
        match self.lists.get(nsid as usize - 1) {
            Some(list) => list.as_slice(),
            None => &[],
        }
    }

    /// The size of a namespace in blocks, 0 where it is not there.
    pub fn size(&self, nsid: u32) -> u64
        ensures value { result ≡ size_in self.now nsid }
        ensures bound { result ≤ 262144 }
    {
        let _ = &self.lists; // proof
        self.list(nsid).len() as u64
    }

    /// The block at an address, if there is one. This and `put` cost the same, however many blocks there are.
    pub fn get(&self, nsid: u32, lba: u64) -> Option<Mapped>
        ensures value { result ≡ mapped_at self.now nsid lba }
        ensures group { IfSome result (λ x. x.rg < 16) }
    {
        placed(self.geometry, page_in(self.list(nsid), lba))
    }

    /// Whether a page is one of the data units.
    pub fn has(&self, spot: Spot) -> bool
        ensures { Decides result (IsPageOf self.now.geometry spot) }
    {
        spot.unit < self.geometry.data_units() && spot.page < self.geometry.unit_pages
    }

    /// Puts a block at an address, in place of the one that was there. Its group is that of its page.
    pub fn put(&mut self, nsid: u32, lba: u64, spot: Spot)
        requires lba { lba < size_in self.old nsid }
        requires page { IsPageOf self.old.geometry spot }
        ensures blocks { mapped_at self.new ≡ with_mapped (mapped_at self.old) nsid lba (Some (mapped_on self.old.geometry spot)) }
        ensures sizes { size_in self.new ≡ size_in self.old }
        ensures geometry { self.new.geometry ≡ self.old.geometry }
    {
        let page = number_of(self.geometry, spot);
        self.set(nsid, lba, Some(page));
    }

    /// Removes the block at an address, if there is one.
    pub fn remove(&mut self, nsid: u32, lba: u64)
        requires lba { lba < size_in self.old nsid }
        ensures blocks { mapped_at self.new ≡ with_mapped (mapped_at self.old) nsid lba None }
        ensures sizes { size_in self.new ≡ size_in self.old }
        ensures geometry { self.new.geometry ≡ self.old.geometry }
    {
        self.set(nsid, lba, None);
    }

    fn set(&mut self, nsid: u32, lba: u64, page: Option<u32>)
        requires lba { lba < size_in self.old nsid }
        requires page { IfSome page (λ n. n < data_pages self.old.geometry) }
        ensures blocks { mapped_at self.new ≡ with_mapped (mapped_at self.old) nsid lba (option_map (placed_on self.old.geometry) page) }
        ensures sizes { size_in self.new ≡ size_in self.old }
        ensures geometry { self.new.geometry ≡ self.old.geometry }
    {
        let before = set_page(&mut self.lists, nsid, lba, page);
        lower(&mut self.counts, placed(self.geometry, before));
        raise(&mut self.counts, placed(self.geometry, page));
    }

    /// How many blocks a group stores.
    pub fn stored(&self, rg: u16) -> u64
        requires group { rg < 16 }
        ensures value { result ≡ stored_in self.now rg }
        ensures state { (s : PlainState) → Agrees self.now rg s → result ≡ stored s rg }
        ensures bound { result ≤ 2 ^ 22 }
    {
        self.counts[usize::from(rg)]
    }

    /// How many of `count` addresses from `slba` on hold a block of a group. It looks at these addresses alone.
    pub fn stored_among(&self, rg: u16, nsid: u32, slba: u64, count: u32) -> u64
        requires range { slba + count ≤ size_in self.now nsid }
        ensures value { result ≡ stored_from self.now rg nsid slba count }
        ensures rest { (s : PlainState) → Agrees self.now rg s → stored_where s rg (λ n lba. not (n == nsid && is_among slba count lba)) + result ≡ stored s rg }
    {
        stored_among(self.geometry, self.list(nsid), rg, slba, count)
    }
}
