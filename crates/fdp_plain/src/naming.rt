//! Blocks are named by where they stand.

ghost use Rattle.std.specs.Prelude.{◌≡◌, ℕ, ◌<◌, length, option_map, set};
ghost use Rattle.fdp_tables.specs.State.{page_of, row};
ghost use Rattle.fdp_plain.specs.Reopening.{IsNamed, named_block, named_page, site_by};

use fdp_base::Spot;
use fdp_tables::{Blocks, KeptPage, PageSites, Space};

/// The blocks of all namespaces are named by where they stand. It looks at each block.
pub(crate) fn name_spaces(spaces: &mut [Option<Space>], sites: &PageSites, found: &PageSites)
    ensures count { length spaces.new ≡ length spaces.old }
    ensures each { (nsid : ℕ) → IsNamed (record { written_rows = sites.now.rows; found_rows = found.now.rows }) (row spaces.old nsid) (row spaces.new nsid) }
{
    for place in 0..spaces.len() {
        name_space(&mut spaces[place], sites, found);
    }
}

fn name_space(space: &mut Option<Space>, sites: &PageSites, found: &PageSites)
    ensures { IsNamed (record { written_rows = sites.now.rows; found_rows = found.now.rows }) space.old space.new }
{
    if let Some(space) = space {
        name_blocks(&mut space.blocks, sites, found);
    }
}

fn name_blocks(blocks: &mut Blocks, sites: &PageSites, found: &PageSites)
    ensures size { length blocks.new ≡ length blocks.old }
    ensures rows { (lba : ℕ) → row blocks.new lba ≡ option_map (named_block (record { written_rows = sites.now.rows; found_rows = found.now.rows })) (row blocks.old lba) }
{
    for place in 0..blocks.len() {
        name_block(blocks, place, sites, found);
    }
}

fn name_block(blocks: &mut Blocks, place: usize, sites: &PageSites, found: &PageSites)
    requires { place < length blocks.old }
    ensures { blocks.new ≡ set blocks.old place (option_map (named_block (record { written_rows = sites.now.rows; found_rows = found.now.rows })) (row blocks.old place)) }
{
    if let Some(block) = blocks.get(place as u64) {
        let page = named(block.page, sites, found);
        blocks.move_to(place, page);
    }
}

/// The name of a page by where it stands; one that stands nowhere keeps its name.
fn named(page: KeptPage, sites: &PageSites, found: &PageSites) -> KeptPage
    ensures { result ≡ named_page (record { written_rows = sites.now.rows; found_rows = found.now.rows }) page }
{
    match site_by(page, sites, found) {
        Some(spot) => KeptPage::Found(spot),
        None => page,
    }
}

fn site_by(page: KeptPage, sites: &PageSites, found: &PageSites) -> Option<Spot>
    ensures { result ≡ site_by (record { written_rows = sites.now.rows; found_rows = found.now.rows }) (page_of page) }
{
    match page {
        KeptPage::Written { ticket, index } => sites.get(ticket, index),
        KeptPage::Found(spot) => found.get(u64::from(spot.unit), spot.page),
    }
}
