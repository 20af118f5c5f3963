use crate::image::{Page, SMALL, SystemPage, cells_of, first_pages, system};
use crate::listed::Listed;
use fdp_areas::{Current, find_current};
use fdp_flash::{Flash, FlashMem, Plan};
use fdp_records::SystemKind;
use fdp_replay::{ReplayFault, replay};
use std::alloc::{AllocError, Global};

/// What is found in the image of a row.
pub fn answer_row(alloc: Global, row: &str) -> Result<String, AllocError> {
    let mut pages = first_pages(alloc)?;
    let mut words = row.split_whitespace();
    for change in row.split(',') {
        let mut words = change.split_whitespace();
        if let Some(page) = words.next() {
            if let Some(field) = words.next() {
                change_page(
                    pages.as_mut_slice(),
                    number_in(Some(page)),
                    field,
                    number_in(words.next()),
                );
            }
        }
    }
    let cells = cells_of(alloc, pages.as_slice())?;
    if !FlashMem::are_cells(SMALL, cells.as_slice()) {
        return String::from_str(alloc, "not cells");
    }
    found(
        alloc,
        FlashMem::of_cells(alloc, SMALL, cells, Plan::empty(alloc))?,
    )
}

/// The number that a word spells, or 0.
fn number_in(word: Option<&str>) -> u64 {
    match word {
        Some(word) => word.parse::<u64>().unwrap_or(0),
        None => 0,
    }
}

fn change_page(pages: &mut [Page], number: u64, field: &str, value: u64) {
    for (i, page) in pages.iter_mut().enumerate() {
        if i as u64 == number {
            *page = changed(*page, field, value);
        }
    }
}

/// A page with one field changed; a page that holds nothing becomes a system page by its kind.
fn changed(page: Page, field: &str, value: u64) -> Page {
    match (page, field) {
        (_, "blank") => Page::Blank,
        (_, "torn") => Page::Torn,
        (Page::System(system), _) => Page::System(with_field(system, field, value)),
        (Page::Blank, "kind") => system(kind_of(value), 0),
        (Page::Torn, "kind") => system(kind_of(value), 0),
        _ => page,
    }
}

fn with_field(page: SystemPage, field: &str, value: u64) -> SystemPage {
    let mut other = page;
    match field {
        "kind" => other.spare.kind = kind_of(value),
        "number" => other.spare.number = u32::try_from(value).unwrap_or(0),
        "epoch" => other.spare.stamp.epoch = value,
        "version" => other.spare.stamp.version = u8::try_from(value).unwrap_or(0),
        "bytes" => other.record = value > 0,
        _ => {}
    }
    other
}

fn kind_of(code: u64) -> SystemKind {
    match code {
        2 => SystemKind::Checkpoint,
        3 => SystemKind::Seal,
        _ => SystemKind::Journal,
    }
}

/// What is found in an image: its current area, and how far its journal is read into a state.
fn found(alloc: Global, mut flash: FlashMem) -> Result<String, AllocError> {
    let mut page = vec![in alloc; 0u8; flash.geometry().block as usize]?;
    match find_current(&mut flash, page.as_mut_slice()) {
        Ok(Some(current)) => {
            let mut state = Listed {
                changes: Vec::new(alloc),
            };
            let answer = replay(alloc, &mut flash, &current, page.as_mut_slice(), &mut state);
            told(alloc, &current, answer, state.changes.len(), flash.moment())
        }
        Ok(None) => format!(in alloc; "no area, {} looks", flash.moment()),
        Err(_) => String::from_str(alloc, "a look failed"),
    }
}

fn told(
    alloc: Global,
    current: &Current,
    answer: Result<u32, ReplayFault>,
    changes: usize,
    looks: u64,
) -> Result<String, AllocError> {
    let area = current.area;
    let epoch = current.seal.stamp.epoch;
    let pages = current.seal.checkpoint;
    match answer {
        Ok(records) => {
            format!(in alloc;
                "area {area}, epoch {epoch}, {pages} pages, {records} records, {changes} changes, {looks} looks"
            )
        }
        Err(ReplayFault::Bad { number }) => {
            format!(in alloc;
                "area {area}, epoch {epoch}, {pages} pages, record {number} is bad, {changes} changes, {looks} looks"
            )
        }
        Err(ReplayFault::Unfit { number }) => {
            format!(in alloc; "area {area}, epoch {epoch}, record {number} does not fit")
        }
        Err(ReplayFault::Failed { moment }) => format!(in alloc; "a look failed at {moment}"),
        Err(ReplayFault::NoMemory) => String::from_str(alloc, "no memory"),
    }
}
