//! Tables of pages that are laid out whole.

ghost use Rattle.std.specs.Prelude.{◌≡◌, ◌+◌, [], None, OnOk, IfOk, replicate};
ghost use Rattle.fdp_tables.specs.PageSites.{AreInPlace};

use crate::page_sites::PageSites;
use fdp_base::Spot;
use std::alloc::{AllocError, Global};

impl PageSites {
    /// So many rows without a page.
    #[tactic(auto, using(std::proofs::lemmas::List::replicate_more))]
    pub fn without_pages(alloc: Global, count: usize) -> Result<PageSites, AllocError>
        ensures { IfOk result (λ sites. sites.rows ≡ replicate count []) }
    {
        let mut sites = PageSites::new(alloc);
        for _ in 0..count {
            sites.reserve()?;
            sites.push(Vec::new(alloc));
        }
        Ok(sites)
    }

    /// A row for each of so many units, each of whose pages stands where it is.
    pub fn of_units(alloc: Global, units: u32, pages: u32) -> Result<PageSites, AllocError>
        ensures { IfOk result (λ sites. AreInPlace sites.rows units pages) }
    {
        let mut sites = PageSites::new(alloc);
        for unit in 0..units {
            sites.add_unit(alloc, unit, pages)?;
        }
        Ok(sites)
    }

    /// A row more, for a unit each of whose pages stands where it is.
    fn add_unit(&mut self, alloc: Global, unit: u32, pages: u32) -> Result<(), AllocError>
        requires { AreInPlace self.old.rows unit pages }
        ensures { OnOk result (AreInPlace self.new.rows (unit + 1) pages) }
    {
        let places = no_sites(alloc, pages)?;
        self.reserve()?;
        self.push(places);
        for page in 0..pages {
            self.place(u64::from(unit), page, Spot { unit, page });
        }
        Ok(())
    }
}

/// So many pages that stand nowhere.
#[tactic(auto, using(std::proofs::lemmas::List::replicate_more))]
fn no_sites(alloc: Global, count: u32) -> Result<Vec<Option<Spot>>, AllocError>
    ensures { IfOk result (λ pages. pages.items ≡ replicate count None) }
{
    let mut pages = Vec::new(alloc);
    for _ in 0..count {
        pages.push(None)?;
    }
    Ok(pages)
}
