ghost use Rattle.std.specs.Prelude.{◌≡◌, ◌<◌, [], ◌∷◌, length, IfOk};
ghost use Rattle.fdp_base.specs.declared.entry.Entry.TheVariants as entries;
ghost use Rattle.fdp_base.specs.Config.{IsValidConfig};
ghost use Rattle.fdp_book.specs.Held.{IsHeld};
ghost use Rattle.fdp_book.specs.Outlined.{IsOutlineAt};
ghost use Rattle.fdp_book.specs.Reopened.{IsReopened, WasFound, cells_found, opening_found};
ghost use Rattle.fdp_image.specs.Checkpoint.{reading_of_state};
ghost use Rattle.fdp_image.specs.Valid.{IsValid};
ghost use Rattle.fdp_readings.specs.fdp_locations.Held.{pages_held};
ghost use Rattle.fdp_book.specs.Saving.{AreSmall};
ghost use Rattle.fdp_outline.specs.Outline.{IsWritable};
ghost use Rattle.fdp_rules.specs.Next.{next};
ghost use Rattle.fdp_rules.specs.Point.{Point};

use super::Book;
use super::fresh::no_flights;
use crate::log::Log;
use crate::tables::{Tables, count};
use fdp_base::DriveConfig;
use fdp_flash::Flash;
use fdp_found::take_map;
use fdp_origin::{Began, Origin};
use fdp_outline::Outline;
use fdp_readings::Pages;
use fdp_snapshot::{State, Summary};
use std::alloc::{AllocError, Global};
use std::marker::Brand;

impl Book {
    /// The book of a drive over an image that was opened, whose state and tables of the pages were found. The one entry of its history
    /// tells of the opening. The map takes over the lists of the state, and the outline its other part, with the events of the opening.
    pub fn reopened<F: Flash>(
        alloc: Global,
        flash: &F,
        config: &DriveConfig,
        state: State,
        pages: Pages,
    ) -> Result<Book, AllocError>
        requires config { IsValidConfig config.now }
        requires found { WasFound config.now (F.state flash.now) state pages }
        ensures book { IfOk result (IsReopened config.now (cells_found config.now (F.state flash.now) pages) (reading_of_state state)) }
        ensures pages { IfOk result (λ book. book.pages ≡ pages) }
        ensures valid { IfOk result (λ book. IsValid config.now (cells_found config.now (F.state flash.now) pages) (reading_of_state state)) }
    {
        pages.joined(); // proof
        let origin = found_origin::<Brand, F>(alloc, flash, config, &state, &pages)?;
        let log = Log::reopened(alloc, state.summary.totals.position, config.unit_pages)?;
        let tables = found_tables(alloc, flash, config, state, pages)?;
        Ok(Book {
            config: config.copied()?,
            origin,
            log,
            tables,
        })
    }
}

/// What the run over an image begins with: what was found there, and the cells of the flash.
fn found_origin<J: Began, F: Flash>(
    alloc: Global,
    flash: &F,
    config: &DriveConfig,
    state: &State,
    pages: &Pages,
) -> Result<Origin, AllocError>
    requires { J.opening ≡ opening_found config.now (F.state flash.now) state.now pages.now }
    ensures { IfOk result (λ origin. origin ≡ opening_found config.now (F.state flash.now) state.now pages.now) }
{
    let _ = flash; // proof
    let _ = config; // proof
    let _ = state; // proof
    let _ = pages; // proof
    Origin::keep::<J>(alloc)
}

/// The tables of a drive whose state was found.
fn found_tables<F: Flash>(
    alloc: Global,
    flash: &F,
    config: &DriveConfig,
    state: State,
    pages: Pages,
) -> Result<Tables, AllocError>
    requires config { IsValidConfig config.now }
    requires found { WasFound config.now (F.state flash.now) state pages }
    ensures held { IfOk result (IsHeld config.now (opening_found config.now (F.state flash.now) state pages).found (pages_held config.now (cells_found config.now (F.state flash.now) pages)) (entries.Reopened ∷ [])) }
    ensures pages { IfOk result (λ tables. tables.pages ≡ pages) }
    ensures generation { IfOk result (λ tables. tables.outline.generation ≡ state.summary.generation) }
{
    let _ = flash; // proof
    pages.joined(); // proof
    let (summary, map) = take_map(config, state);
    Ok(Tables {
        outline: found_outline(alloc, config, summary),
        map,
        flights: no_flights(alloc, usize::from(config.queues) + 1)?,
        pages,
    })
}

/// The outline of a drive over an image that was opened, behind the entry of the opening: with the events of that.
fn found_outline(alloc: Global, config: &DriveConfig, summary: Summary) -> Outline
    requires writable { IsWritable summary }
    requires index { summary.index < length config.now.fdp }
    requires small { AreSmall summary.totals }
    requires config { IsValidConfig config.now }
    ensures { (p : Point) → IsOutlineAt config.now p summary → p.totals.position ≡ p.state.position → IsOutlineAt config.now (next config.now p entries.Reopened) result }
{
    let position = summary.totals.position + 1;
    let handles = config.handle_count(summary.enabled, summary.index);
    let mut outline = Outline::new(alloc, summary);
    outline.keep_reopened(position, config.groups, handles);
    count(&mut outline, 0, 0);
    outline
}
