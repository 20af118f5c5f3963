//! Where the pages of writes stand, in a table.

ghost use Rattle.std.specs.Prelude.{◌≡◌, ◌≢◌, ℕ, ◌+◌, ◌-◌, ◌<◌, ◌++◌, ◌∷◌, [], None, Some, IfSome, IsTrue, OnOk, length, map, option_map, option_and_then, replicate, slice_set, slice_index_or};
ghost use Rattle.std.specs.List.{list_all};
ghost use Rattle.std.specs.Vec.{vec_capacity, vec_items, vec_len};
ghost use Rattle.fdp_base.specs.declared.entry.Spot.{Spot};
ghost use Rattle.fdp_rules.specs.Sites.{moved_by, outside};
ghost use Rattle.fdp_tables.specs.Copies.{copy_of};
ghost use Rattle.fdp_tables.specs.Index.{Lists, is_listed};
ghost use Rattle.fdp_tables.specs.PageSites.{leaves, site_in};

use crate::index::Index;
use crate::moving::{are_leaving, list_moved, unit_of};
use crate::site_change::{SiteChange, change_all, change_rows};
use fdp_base::Spot;
use std::alloc::{AllocError, Global};
use std::marker::Model;

/// Where the pages of writes stand: a row for each ticket, a place in it for each page. Contracts see it as its rows, and
/// how many more it takes without memory.
#[derive(Debug, Drop)]
pub struct PageSites {
    rows: Vec<Vec<Option<Spot>>>,
    /// By unit: the tickets of the rows of which a page may stand there, so that an erase or a move looks at no other.
    tickets: Index,
}

impl Model for PageSites {
    ghost use Rattle.std.specs.Prelude.{◌-◌, map};
    ghost use Rattle.std.specs.Vec.{vec_capacity, vec_items, vec_len};
    ghost use Rattle.fdp_tables.specs.PageSites.{AreListed, SiteRows};

    ghost Value = { SiteRows };

    ghost view = { λ s. record { rows = map vec_items s.rows.items; row_room = vec_capacity s.rows - vec_len s.rows } };

    ghost invariant = { λ s. AreListed (map vec_items s.rows.items) s.tickets };
}

impl PageSites {
    /// No row. It takes no memory.
    pub fn new(alloc: Global) -> PageSites
        ensures { result.rows ≡ [] }
    {
        PageSites {
            rows: Vec::new(alloc),
            tickets: Index::new(alloc),
        }
    }

    /// Makes room for a row more.
    pub fn reserve(&mut self) -> Result<(), AllocError>
        ensures rows { self.new.rows ≡ self.old.rows }
        ensures row_room { OnOk result (0 < self.new.row_room) }
    {
        self.rows.reserve(1)
    }

    /// Adds the row of the next ticket, whose pages stand nowhere yet.
    pub fn push(&mut self, pages: Vec<Option<Spot>>)
        requires room { 0 < self.old.row_room }
        requires blank { pages.items ≡ replicate (length pages.items) None }
        ensures { self.new.rows ≡ self.old.rows ++ pages.items ∷ [] }
    {
        self.rows.push_reserved(pages);
    }

    /// Where a page stands.
    pub fn get(&self, ticket: u64, index: u32) -> Option<Spot>
        ensures { result ≡ site_in self.now.rows ticket index }
    {
        match self.rows.as_slice().get(ticket as usize) {
            Some(pages) => match pages.as_slice().get(index as usize) {
                Some(Some(spot)) => Some(*spot),
                Some(None) => None,
                None => None,
            },
            None => None,
        }
    }

    /// The tickets of all rows of which a page stands in a unit, and perhaps of others; none where memory was wanting for them, and any row
    /// may have one.
    pub fn tickets_in(&self, unit: u32) -> Option<&[u64]>
        ensures { IfSome result (λ tickets. (ticket index : ℕ) (spot : Spot) → site_in self.now.rows ticket index ≡ Some spot → spot.unit ≡ unit → IsTrue (is_listed ticket tickets.now)) }
    {
        self.tickets.get(u64::from(unit))
    }

    /// A page stands at this spot from now on.
    pub fn place(&mut self, ticket: u64, index: u32, spot: Spot)
        requires ticket { ticket < length self.old.rows }
        requires index { index < length (slice_index_or self.old.rows ticket []) }
        ensures { self.new.rows ≡ slice_set self.old.rows ticket (slice_set (slice_index_or self.old.rows ticket []) index (Some spot)) }
    {
        self.tickets.add(u64::from(spot.unit), ticket);
        put(&mut self.rows, ticket as usize, index as usize, spot);
    }

    /// No page stands in an erased unit any longer. It looks at the pages of each row of which one may stand there.
    pub fn erase(&mut self, unit: u32)
        ensures { self.new.rows ≡ map (map (option_and_then (outside unit))) self.old.rows }
    {
        let change = SiteChange::Erased(unit);
        match self.tickets.take(u64::from(unit)) {
            Some(tickets) => change_rows(&mut self.rows, tickets.as_slice(), change),
            None => change_all(&mut self.rows, change),
        }
    }

    /// Pages stand where these copies moved them. It looks at the pages of each row of which one may stand in the unit that they leave.
    pub fn relocate(&mut self, pass: &[(Spot, Spot)])
        ensures { self.new.rows ≡ map (map (option_map (moved_by (map copy_of pass.now)))) self.old.rows }
    {
        let unit = unit_of(pass);
        match moving(&mut self.tickets, unit, pass) {
            Some(tickets) => {
                list_moved(
                    &mut self.tickets,
                    self.rows.as_slice(),
                    tickets.as_slice(),
                    unit,
                    pass,
                );
                change_rows(&mut self.rows, tickets.as_slice(), SiteChange::Moved(pass));
            }
            None => {
                // (of copies that leave several units, which no run makes)
                self.tickets.give_up();
                change_all(&mut self.rows, SiteChange::Moved(pass));
            }
        }
    }
}

/// Takes the tickets away that are listed under a unit, where all these copies leave it.
fn moving(tickets: &mut Index, unit: u32, pass: &[(Spot, Spot)]) -> Option<Vec<u64>>
    ensures leaving { IfSome result (λ list. IsTrue (list_all (leaves unit) pass.now)) }
    ensures all { IfSome result (λ list. (v : ℕ) → Lists tickets.old unit v → IsTrue (is_listed v list.items)) }
    ensures others { (k v : ℕ) → k ≢ unit → Lists tickets.old k v → Lists tickets.new k v }
{
    if are_leaving(pass, unit) {
        tickets.take(u64::from(unit))
    } else {
        None
    }
}

fn put(rows: &mut Vec<Vec<Option<Spot>>>, ticket: usize, index: usize, spot: Spot)
    requires ticket { ticket < length (map vec_items rows.old.items) }
    requires index { index < length (slice_index_or (map vec_items rows.old.items) ticket []) }
    ensures { map vec_items rows.new.items ≡ slice_set (map vec_items rows.old.items) ticket (slice_set (slice_index_or (map vec_items rows.old.items) ticket []) index (Some spot)) }
{
    rows[ticket][index] = Some(spot);
}
