//! Namespaces that come and go.

ghost use Rattle.std.specs.Prelude.{◌≡◌, None, length, replicate};
ghost use Rattle.fdp_base.specs.Geometry.{IsWithin};
ghost use Rattle.fdp_book.specs.Namespaces.{ArePointed, CanCreate, Creates, Deletes, HasFlights, Releases, pages_to};
ghost use Rattle.fdp_owners.specs.OwnerTable.{owner_at};
ghost use Rattle.fdp_readings.specs.fdp_pages.Steps.{AreOwned, ChangesOwners, without};

use super::clearing::clear_blocks;
use super::forget::is_there;
use crate::flight::Flight;
use crate::tables::Tables;
use fdp_base::{Create, Spot};
use fdp_map::PageList;
use fdp_outline::Outline;
use fdp_readings::Pages;

/// A namespace is gone, with its blocks. The pages of these and of the writes to it have no owner any more; the writes go on, and end as
/// the drive tells them. It takes a step for each place of the namespace, for each queue, and for each page of those writes.
pub(super) fn delete_namespace(tables: &mut Tables, nsid: u32)
    requires nsid { IsWithin 1 16 nsid }
    requires pointers { ArePointed tables.old }
    ensures { Deletes tables.old tables.new nsid }
{
    release_writes(&tables.outline, &tables.flights, &mut tables.pages, nsid);
    let size = tables.map.size(nsid);
    clear_blocks(&mut tables.map, &mut tables.pages, nsid, 0, size as u32);
    tables.map.delete(nsid);
}

/// The pages of the writes to a namespace have no owner any more.
fn release_writes(outline: &Outline, flights: &[Option<Flight>], pages: &mut Pages, nsid: u32)
    requires { HasFlights outline.now flights.now pages.old }
    ensures { Releases outline.now flights.now nsid (length flights.now) pages.old pages.new }
{
    pages.joined(); // proof
    for queue in 0..flights.len() {
        release_write(outline, &flights[queue], pages, nsid);
    }
}

/// The pages of a write have no owner any more, if it goes to this namespace.
fn release_write(outline: &Outline, flight: &Option<Flight>, pages: &mut Pages, nsid: u32)
    requires { AreOwned pages.old.owners (pages_to outline.now nsid flight.now) }
    ensures owners { owner_at pages.new.owners ≡ without (owner_at pages.old.owners) (pages_to outline.now nsid flight.now) }
    ensures rest { ChangesOwners pages.old pages.new }
{
    pages.release(pages_to(outline, nsid, flight));
}

/// The pages of a write that may be going to a namespace, as long as that is there.
fn pages_to<'a>(outline: &Outline, nsid: u32, flight: &'a Option<Flight>) -> &'a [Spot]
    ensures { result.now ≡ pages_to outline.now nsid flight.now }
{
    match flight {
        Some(flight) => {
            if flight.extent.nsid == nsid && is_there(outline, flight) {
                flight.pages.as_slice()
            } else {
                &[]
            }
        }
        None => &[],
    }
}

/// A namespace comes under the lowest free identifier, with these places of its blocks. It takes no memory.
pub(super) fn create_namespace(tables: &mut Tables, create: &Create, places: PageList)
    requires may { CanCreate tables.old create.now }
    requires places { places ≡ replicate create.now.size None }
    ensures { Creates tables.old tables.new create.now }
{
    match tables.outline.lowest_free() {
        Some(nsid) => tables.map.insert(nsid, places),
        // One is free.
        None => unreachable!(),
    }
}
