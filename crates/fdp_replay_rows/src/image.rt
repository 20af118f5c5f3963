use fdp_base::{Geometry, Sequence, Totals};
use fdp_flash::Cell;
use fdp_records::{Change, Stamp, SystemKind, SystemSpare};
use std::alloc::{AllocError, Global};

/// Two pages of data, and two areas of six pages.
pub const SMALL: Geometry = Geometry {
    block: 512,
    unit_pages: 2,
    groups: 1,
    units: 1,
    area_units: 3,
};

/// What a page holds.
#[derive(Clone, Copy)]
pub enum Page {
    Blank,
    Torn,
    System(SystemPage),
}

/// A system page, and whether its bytes are a record.
#[derive(Clone, Copy)]
pub struct SystemPage {
    pub spare: SystemSpare,
    pub record: bool,
}

/// A system page of version 1 and epoch 7.
pub fn system(kind: SystemKind, number: u32) -> Page {
    Page::System(SystemPage {
        spare: SystemSpare {
            kind,
            number,
            stamp: Stamp {
                version: 1,
                epoch: 7,
            },
        },
        record: kind == SystemKind::Journal,
    })
}

/// The pages that the rows change.
pub fn first_pages(alloc: Global) -> Result<Vec<Page>, AllocError> {
    let mut pages = Vec::new(alloc);
    pages.push(Page::Blank)?;
    pages.push(Page::Blank)?;
    pages.push(system(SystemKind::Checkpoint, 0))?;
    pages.push(system(SystemKind::Checkpoint, 1))?;
    pages.push(system(SystemKind::Seal, 2))?;
    pages.push(system(SystemKind::Journal, 0))?;
    pages.push(system(SystemKind::Journal, 1))?;
    for _ in 7..14 {
        pages.push(Page::Blank)?;
    }
    Ok(pages)
}

/// The cells of some pages.
pub fn cells_of(alloc: Global, pages: &[Page]) -> Result<Vec<Cell>, AllocError> {
    let mut cells = Vec::new(alloc);
    for page in pages {
        cells.push(cell_of(alloc, *page)?)?;
    }
    Ok(cells)
}

fn cell_of(alloc: Global, page: Page) -> Result<Cell, AllocError> {
    match page {
        Page::Blank => Ok(Cell::Blank),
        Page::Torn => Ok(Cell::Torn),
        Page::System(system) => Ok(Cell::Whole {
            spare: system.spare.encode(),
            bytes: Sequence::from_vec(bytes_of(alloc, system)?),
        }),
    }
}

fn bytes_of(alloc: Global, page: SystemPage) -> Result<Vec<u8>, AllocError> {
    let mut bytes = vec![in alloc; 0u8; 512]?;
    let change = Change::Delete { nsid: 1 };
    let totals = Totals {
        position: 3,
        host_blocks: 0,
        media_blocks: 0,
        erases: 0,
    };
    if page.record && change.is_within_limits() {
        change.encode(&totals, bytes.as_mut_slice());
    }
    Ok(bytes)
}
