ghost use Rattle.std.specs.Prelude.{◌≡◌, None, [], replicate, IfOk};
ghost use Rattle.fdp_base.specs.Config.{IsValidConfig};
ghost use Rattle.fdp_rules.specs.History.{fresh, point_of};
ghost use Rattle.fdp_book.specs.Book.{AreUnused, IsFirst};
ghost use Rattle.fdp_book.specs.Configured.{IsConfiguredMap, fresh_opening};
ghost use Rattle.fdp_readings.specs.fdp_locations.Held.{pages_held};
ghost use Rattle.fdp_book.specs.Held.{IsHeld};
ghost use Rattle.fdp_book.specs.Outlined.{IsOutlineAt};

use super::Book;
use crate::flight::Flight;
use crate::log::Log;
use crate::tables::Tables;
use fdp_base::DriveConfig;
use fdp_map::Map;
use fdp_origin::{Began, Origin};
use fdp_outline::{Outline, fresh_summary};
use fdp_readings::Pages;
use std::alloc::{AllocError, Global};
use std::marker::Brand;

impl Book {
    /// The book of a drive as its configuration makes it: its namespaces have the identifiers from 1 on. It takes a place for
    /// each of their blocks.
    pub fn fresh(alloc: Global, config: &DriveConfig) -> Result<Book, AllocError>
        requires { IsValidConfig config.now }
        ensures { IfOk result (λ book. IsFirst config.now book) }
    {
        Ok(Book {
            config: config.copied()?,
            origin: fresh_origin::<Brand>(alloc, config)?,
            log: Log::new(alloc, 0, config.unit_pages),
            tables: configured_tables(alloc, config)?,
        })
    }
}

/// What the run of a drive begins with as its configuration makes it.
fn fresh_origin<J: Began>(alloc: Global, config: &DriveConfig) -> Result<Origin, AllocError>
    requires { J.opening ≡ fresh_opening config.now }
    ensures { IfOk result (λ origin. origin ≡ fresh_opening config.now) }
{
    let _ = config; // proof
    Origin::keep::<J>(alloc)
}

/// The tables of a drive as its configuration makes it.
fn configured_tables(alloc: Global, config: &DriveConfig) -> Result<Tables, AllocError>
    requires { IsValidConfig config.now }
    ensures held { IfOk result (λ tables. IsHeld config.now (fresh config.now) (pages_held config.now (fresh_opening config.now).cells) [] tables) }
    ensures unused { IfOk result (λ tables. AreUnused config.now tables.pages) }
    ensures generation { IfOk result (λ tables. tables.outline.generation ≡ 0) }
{
    let classes = config.classes(config.enabled, config.index);
    let pages = Pages::new(alloc, classes, config.geometry())?;
    pages.joined(); // proof
    Ok(Tables {
        outline: configured_outline(alloc, config)?,
        map: configured_map(alloc, config)?,
        flights: no_flights(alloc, usize::from(config.queues) + 1)?,
        pages,
    })
}

/// The outline of a drive as its configuration makes it.
fn configured_outline(alloc: Global, config: &DriveConfig) -> Result<Outline, AllocError>
    requires { IsValidConfig config.now }
    ensures { IfOk result (λ outline. IsOutlineAt config.now (point_of config.now (fresh config.now) []) outline) }
{
    let summary = fresh_summary(alloc, config)?;
    Ok(Outline::new(alloc, summary))
}

/// A place for each block of the namespaces that a drive is made with.
fn configured_map(alloc: Global, config: &DriveConfig) -> Result<Map, AllocError>
    requires { IsValidConfig config.now }
    ensures { IfOk result (λ map. IsConfiguredMap config.now map) }
{
    let mut map = Map::new(alloc, config.geometry())?;
    let namespaces = config.namespaces.as_slice();
    for place in 0..namespaces.len() {
        map.add(alloc, place as u32 + 1, namespaces[place].blocks)?;
    }
    Ok(map)
}

/// No write is going in so many rows.
#[tactic(auto, using(std::proofs::lemmas::List::replicate_more))]
pub(super) fn no_flights(alloc: Global, count: usize) -> Result<Vec<Option<Flight>>, AllocError>
    ensures { IfOk result (λ flights. flights.items ≡ replicate count None) }
{
    let mut flights = Vec::new(alloc);
    for _ in 0..count {
        flights.push(None)?;
    }
    Ok(flights)
}
