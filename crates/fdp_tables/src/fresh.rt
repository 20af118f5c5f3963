ghost use Rattle.std.specs.Prelude.{◌≡◌, ◌+◌, ◌*◌, ◌<◌, ◌≤◌, false, true, [], ◌∷◌, List, None, length, map, replicate, unwrap_or, IfOk};
ghost use Rattle.std.specs.Vec.{vec_items};
ghost use Rattle.fdp_base.specs.Config.{IsValidConfig};
ghost use Rattle.fdp_tables.specs.Fresh.{AreFirst, IsBlank, IsFresh, whole_reference};
ghost use Rattle.fdp_tables.specs.Reports.{no_reports};
ghost use Rattle.fdp_tables.specs.Spaces.{IsMade};

use crate::create::make_space;
use crate::page_sites::PageSites;
use crate::state::{Kept, KeptGoing, KeptReference, KeptReports, Space};
use fdp_base::{DriveConfig, HandleList, NamespaceConfig, Spot};
use std::alloc::{AllocError, Global};

impl Kept {
    /// The drive as its configuration makes it. It takes memory for a place for each block of its namespaces.
    pub fn fresh(alloc: Global, config: &DriveConfig) -> Result<Kept, AllocError>
        requires { IsValidConfig config.now }
        ensures { IfOk result (λ kept. IsFresh config.now kept) }
    {
        Kept::blank(alloc, config)
    }

    /// Each table with its rows, before anything was written.
    fn blank(alloc: Global, config: &DriveConfig) -> Result<Kept, AllocError>
        requires { IsValidConfig config.now }
        ensures { IfOk result (λ kept. IsBlank config.now kept) }
    {
        let groups = usize::from(config.groups);
        let units = config.geometry().data_units() as usize;
        Ok(Kept {
            config: config.copied()?,
            entries: Vec::new(alloc),
            starts: Vec::new(alloc),
            enabled: config.enabled,
            index: config.index,
            generation: 0,
            reports: first_reports(alloc)?,
            spaces: first_spaces(alloc, config.namespaces.as_slice())?,
            references: first_references(alloc, 16 * groups, config.unit_pages)?,
            going: no_writes(alloc, usize::from(config.queues) + 1)?,
            lost: all_unset(alloc, units)?,
            worn: all_unset(alloc, groups)?,
            media: Vec::new(alloc),
            sites: first_sites(alloc)?,
            found: PageSites::new(alloc),
            copies: no_copies(alloc, groups)?,
            host_blocks: 0,
            media_blocks: 0,
            erases: 0,
            events: Vec::new(alloc),
        })
    }
}

#[tactic(auto, using(std::proofs::lemmas::List::replicate_more))]
fn first_reports(alloc: Global) -> Result<Vec<KeptReports>, AllocError>
    ensures { IfOk result (λ rows. rows.items ≡ replicate 16 no_reports) }
{
    let mut rows = Vec::new(alloc);
    for _ in 0..16_usize {
        rows.push(no_reports())?;
    }
    Ok(rows)
}

#[tactic(auto, using(std::proofs::lemmas::List::replicate_more))]
fn first_references(
    alloc: Global,
    count: usize,
    unit_pages: u32,
) -> Result<Vec<KeptReference>, AllocError>
    ensures { IfOk result (λ rows. rows.items ≡ replicate count (record { unit = None; left = unit_pages })) }
{
    let mut rows = Vec::new(alloc);
    for _ in 0..count {
        rows.push(KeptReference {
            unit: None,
            left: unit_pages,
        })?;
    }
    Ok(rows)
}

#[tactic(auto, using(std::proofs::lemmas::List::replicate_more))]
fn no_writes(alloc: Global, count: usize) -> Result<Vec<Option<KeptGoing>>, AllocError>
    ensures { IfOk result (λ rows. rows.items ≡ replicate count None) }
{
    let mut rows = Vec::new(alloc);
    for _ in 0..count {
        rows.push(None)?;
    }
    Ok(rows)
}

#[tactic(auto, using(std::proofs::lemmas::List::replicate_more))]
fn all_unset(alloc: Global, count: usize) -> Result<Vec<bool>, AllocError>
    ensures { IfOk result (λ rows. rows.items ≡ replicate count false) }
{
    let mut rows = Vec::new(alloc);
    for _ in 0..count {
        rows.push(false)?;
    }
    Ok(rows)
}

/// No ticket is 0, so its row stays empty.
fn first_sites(alloc: Global) -> Result<PageSites, AllocError>
    ensures { IfOk result (λ sites. sites.rows ≡ [] ∷ []) }
{
    PageSites::without_pages(alloc, 1)
}

#[tactic(auto, using(std::proofs::lemmas::List::replicate_more))]
fn no_copies(alloc: Global, count: usize) -> Result<Vec<Vec<(Spot, Spot)>>, AllocError>
    ensures { IfOk result (λ rows. map vec_items rows.items ≡ replicate count []) }
{
    let mut rows = Vec::new(alloc);
    for _ in 0..count {
        rows.push(Vec::new(alloc))?;
    }
    Ok(rows)
}

/// The namespaces that a drive is made with: they have the identifiers from 1 on.
fn first_spaces(
    alloc: Global,
    namespaces: &[NamespaceConfig],
) -> Result<Vec<Option<Space>>, AllocError>
    requires { length namespaces.now ≤ 16 }
    ensures { IfOk result (λ spaces. AreFirst namespaces.now spaces.items) }
{
    let mut spaces = no_spaces(alloc)?;
    for place in 0..namespaces.len() {
        spaces[place + 1] = Some(first_space(alloc, &namespaces[place])?);
    }
    Ok(spaces)
}

#[tactic(auto, using(std::proofs::lemmas::List::replicate_more))]
fn no_spaces(alloc: Global) -> Result<Vec<Option<Space>>, AllocError>
    ensures { IfOk result (λ rows. rows.items ≡ replicate 17 None) }
{
    let mut rows = Vec::new(alloc);
    for _ in 0..17_usize {
        rows.push(None)?;
    }
    Ok(rows)
}

fn first_space(alloc: Global, namespace: &NamespaceConfig) -> Result<Space, AllocError>
    ensures { IfOk result (λ space. IsMade space namespace.now.blocks true (unwrap_or namespace.now.handles []) 0) }
{
    match &namespace.handles {
        Some(handles) => make_space(alloc, namespace.blocks, true, handles, 0),
        None => make_space(alloc, namespace.blocks, true, &HandleList::new(alloc), 0),
    }
}

/// No kind of event is kept.
pub fn no_reports() -> KeptReports
    ensures { result ≡ no_reports }
{
    KeptReports {
        not_fully_written: false,
        time_limit_exceeded: false,
        handles_modified: false,
        invalid_identifier: false,
        media_reallocated: false,
        implicitly_modified: false,
    }
}
