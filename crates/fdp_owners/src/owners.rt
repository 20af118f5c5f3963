ghost use Rattle.std.specs.Prelude.{◌≡◌, ℕ, ◌*◌, ◌+◌, ◌≤◌, ◌<◌, Decides, None, Some, IfOk, IsSome, length, option_map, slice_set};
ghost use Rattle.fdp_base.specs.declared.entry.Spot.{Spot as Page};
ghost use Rattle.fdp_base.specs.Geometry.{IsValidGeometry, data_units};
ghost use Rattle.fdp_owners.specs.OwnerTable.{IsPlace, held_by, live_in, one_less, one_more, owner_at, page_number, with_owner};

use crate::owner::{Holder, Owner};
use fdp_base::{Geometry, Spot};
use std::alloc::{AllocError, Global};
use std::marker::Model;

/// The owner of each page of data. Each call but `new` takes the same short time and no memory.
#[derive(Debug, Drop)]
pub struct Owners {
    unit_pages: u32,
    /// Unit by unit.
    pages: Vec<Option<Owner>>,
}

impl Model for Owners {
    ghost use Rattle.fdp_owners.specs.OwnerTable.{IsSized, OwnerTable};

    ghost Value = { OwnerTable };

    ghost view = { λ o. record { unit_pages = o.unit_pages; pages = o.pages.items } };

    ghost invariant = { λ o. IsSized (record { unit_pages = o.unit_pages; pages = o.pages.items }) };
}

impl Owners {
    /// No page has an owner.
    pub fn new(alloc: Global, geometry: Geometry) -> Result<Owners, AllocError>
        requires { IsValidGeometry geometry }
        ensures owners { IfOk result (λ owners. (spot : Page) → owner_at owners spot ≡ None) }
        ensures pages { IfOk result (λ owners. length owners.pages ≡ data_units geometry * geometry.unit_pages) }
        ensures unit_pages { IfOk result (λ owners. owners.unit_pages ≡ geometry.unit_pages) }
    {
        let pages = vec![in alloc; None; (geometry.data_units() * geometry.unit_pages) as usize]?;
        Ok(Owners {
            unit_pages: geometry.unit_pages,
            pages,
        })
    }

    /// Whether a page is one of the data units.
    pub fn has(&self, spot: Spot) -> bool
        ensures { Decides result (IsPlace self.now spot) }
    {
        spot.page < self.unit_pages
            && u64::from(spot.unit) * u64::from(self.unit_pages) + u64::from(spot.page)
                < self.pages.len() as u64
    }

    /// Pages of a unit.
    pub fn unit_pages(&self) -> u32
        ensures { result ≡ self.now.unit_pages }
    {
        self.unit_pages
    }

    /// The number of a page.
    fn number(&self, spot: Spot) -> usize
        requires { IsPlace self.now spot }
        ensures value { result ≡ page_number self.now.unit_pages spot }
        ensures within { result < length self.now.pages }
    {
        (spot.unit * self.unit_pages + spot.page) as usize
    }

    /// The owner of a page, if it has one.
    pub fn get(&self, spot: Spot) -> Option<Owner>
        requires { IsPlace self.now spot }
        ensures { result ≡ owner_at self.now spot }
    {
        self.pages[self.number(spot)]
    }

    fn set(&mut self, spot: Spot, owner: Option<Owner>)
        requires { IsPlace self.old spot }
        ensures { self.new ≡ record self.old { pages = slice_set self.old.pages (page_number self.old.unit_pages spot) owner } }
    {
        let number = self.number(spot);
        self.pages[number] = owner;
    }

    /// A page that had no owner gets one.
    pub fn put(&mut self, spot: Spot, owner: Owner)
        requires place { IsPlace self.old spot }
        requires free { owner_at self.old spot ≡ None }
        ensures owners { owner_at self.new ≡ with_owner (owner_at self.old) spot (Some owner) }
        ensures live { live_in self.new ≡ one_more (live_in self.old) spot.unit }
        ensures rest { self.new ≡ record self.old { pages = self.new.pages } }
        ensures size { length self.new.pages ≡ length self.old.pages }
    {
        self.set(spot, Some(owner));
    }

    /// A page loses its owner.
    pub fn clear(&mut self, spot: Spot)
        requires place { IsPlace self.old spot }
        requires owned { IsSome (owner_at self.old spot) }
        ensures owners { owner_at self.new ≡ with_owner (owner_at self.old) spot None }
        ensures live { live_in self.new ≡ one_less (live_in self.old) spot.unit }
        ensures rest { self.new ≡ record self.old { pages = self.new.pages } }
        ensures size { length self.new.pages ≡ length self.old.pages }
    {
        self.set(spot, None);
    }

    /// A page comes into other hands; its spare stays.
    pub fn hand_over(&mut self, spot: Spot, holder: Holder)
        requires place { IsPlace self.old spot }
        ensures owners { owner_at self.new ≡ with_owner (owner_at self.old) spot (option_map (held_by holder) (owner_at self.old spot)) }
        ensures live { live_in self.new ≡ live_in self.old }
        ensures rest { self.new ≡ record self.old { pages = self.new.pages } }
        ensures size { length self.new.pages ≡ length self.old.pages }
    {
        let owner = in_hands(self.get(spot), holder);
        self.set(spot, owner);
    }

    /// The owner of a page gets another one, which had no owner, in its place.
    pub fn move_to(&mut self, from: Spot, to: Spot)
        requires from { IsPlace self.old from }
        requires to { IsPlace self.old to }
        requires owned { IsSome (owner_at self.old from) }
        requires free { owner_at self.old to ≡ None }
        ensures owners { owner_at self.new ≡ with_owner (with_owner (owner_at self.old) from None) to (owner_at self.old from) }
        ensures live { live_in self.new ≡ one_more (one_less (live_in self.old) from.unit) to.unit }
        ensures rest { self.new ≡ record self.old { pages = self.new.pages } }
        ensures size { length self.new.pages ≡ length self.old.pages }
    {
        let owner = self.get(from);
        self.set(from, None);
        self.set(to, owner);
    }
}

/// An owner, if there is one, in the hands of another.
fn in_hands(owner: Option<Owner>, holder: Holder) -> Option<Owner>
    ensures { result ≡ option_map (held_by holder) owner }
{
    match owner {
        Some(owner) => Some(Owner {
            holder,
            spare: owner.spare,
        }),
        None => None,
    }
}
