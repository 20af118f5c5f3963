ghost use Rattle.std.specs.Prelude.{◌≡◌, ◌≤◌, [], ◌∷◌, All, IfOk, length, map, replicate};
ghost use Rattle.fdp_base.specs.Config.{IsInRange};
ghost use Rattle.fdp_snapshot.specs.Checkpoint.{IsState};
ghost use Rattle.fdp_snapshot.specs.Reading.{size_of_row};
ghost use Rattle.fdp_snapshot.specs.Rows.{IsEntry, IsSpaceRow};

use fdp_base::{Class, Classes, DriveConfig, Geometry, Sequence, Totals};
use fdp_snapshot::{EventRing, HandleRow, Keys, NamespaceHandles, PageList, Space, State, Summary};
use std::alloc::{AllocError, Global};

/// Thirty-two pages of data, and two areas of twenty-eight pages.
pub const SMALL: Geometry = Geometry {
    block: 512,
    unit_pages: 4,
    groups: 1,
    units: 8,
    area_units: 7,
};

/// The configuration of the small drive, with eight units or one more.
pub fn small_config(alloc: Global, units: u32) -> Result<DriveConfig, AllocError>
    requires least { 8 ≤ units }
    requires most { units ≤ 9 }
    ensures { IfOk result IsInRange }
{
    let classes = Classes::from_vec(vec![in alloc; Class::Initial]?);
    Ok(DriveConfig {
        block: 512,
        unit_pages: 4,
        groups: 1,
        units,
        area_units: 7,
        queues: 1,
        blocks_per_command: 1,
        fdp: Sequence::from_vec(vec![in alloc; classes]?),
        enabled: true,
        index: 0,
        namespaces: Sequence::new(alloc),
        queue_depth: 2,
        collectors: 0,
        turns: 0,
    })
}

/// The drive at a position, with one namespace of two blocks: block 0 on page 4, block 1 nowhere.
pub fn small_state(alloc: Global, position: u16) -> Result<State, AllocError>
    ensures { IfOk result IsState }
{
    let keys = match small_keys(alloc) {
        Ok(keys) => keys,
        Err(fault) => return Err(fault),
    };
    let spaces = match one_space(alloc) {
        Ok(spaces) => spaces,
        Err(fault) => return Err(fault),
    };
    let host_events = match EventRing::new(alloc) {
        Ok(events) => events,
        Err(fault) => return Err(fault),
    };
    let controller_events = match EventRing::new(alloc) {
        Ok(events) => events,
        Err(fault) => return Err(fault),
    };
    match two_blocks(alloc) {
        Ok(pages) => Ok(State {
            summary: Summary {
                keys,
                totals: Totals {
                    position: u64::from(position),
                    host_blocks: 1,
                    media_blocks: 1,
                    erases: 0,
                },
                enabled: true,
                index: 0,
                generation: 0,
                masks: [0; 16],
                spaces,
                host_events,
                controller_events,
            },
            pages,
        }),
        Err(fault) => Err(fault),
    }
}

/// The sizes of the small drive.
fn small_keys(alloc: Global) -> Result<Keys, AllocError>
    ensures { IfOk result (λ keys. length keys.configurations ≤ 4) }
{
    let row = HandleRow {
        handles: 1,
        persistent: 0,
    };
    Ok(Keys {
        block: 512,
        unit_pages: 4,
        groups: 1,
        units: 8,
        area_units: 7,
        queues: 1,
        blocks_per_command: 1,
        configurations: Sequence::from_vec(vec![in alloc; row]?),
    })
}

/// One namespace of two blocks, with handle 0.
fn one_space(alloc: Global) -> Result<Sequence<Option<Space>>, AllocError>
    ensures rows { IfOk result (λ spaces. All IsSpaceRow spaces) }
    ensures sizes { IfOk result (λ spaces. map size_of_row spaces ≡ 2 ∷ replicate 15 0) }
{
    let first = Some(Space {
        size: 2,
        birth: 0,
        given: false,
        handles: NamespaceHandles::of_slice(&[0]),
    });
    let spaces = vec![in alloc;
        first, None, None, None, None, None, None, None, None, None, None, None, None, None, None,
        None,
    ]?;
    Ok(Sequence::from_vec(spaces))
}

/// The pages of the blocks of the one namespace.
fn two_blocks(alloc: Global) -> Result<Sequence<PageList>, AllocError>
    ensures entries { IfOk result (λ pages. All (λ list. All IsEntry list) pages) }
    ensures sizes { IfOk result (λ pages. map length pages ≡ 2 ∷ replicate 15 0) }
{
    let first = Sequence::from_vec(vec![in alloc; Some(4u32), None]?);
    let pages = vec![in alloc;
        first,
        none(alloc),
        none(alloc),
        none(alloc),
        none(alloc),
        none(alloc),
        none(alloc),
        none(alloc),
        none(alloc),
        none(alloc),
        none(alloc),
        none(alloc),
        none(alloc),
        none(alloc),
        none(alloc),
        none(alloc),
    ]?;
    Ok(Sequence::from_vec(pages))
}

fn none(alloc: Global) -> PageList
    ensures { result ≡ [] }
{
    Sequence::new(alloc)
}
