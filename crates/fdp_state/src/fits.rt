//! Whether a change fits what a loaded state says.

ghost use Rattle.std.specs.Prelude.{◌≡◌, ◌+◌, ◌<◌, ◌≤◌, ◌^◌, ◌&&◌, length, nat_le, nat_lt};
ghost use Rattle.std.specs.List.{list_all, list_any};
ghost use Rattle.fdp_base.specs.Config.{IsInRange};
ghost use Rattle.fdp_base.specs.Numbers.{has_repeat};
ghost use Rattle.fdp_base.specs.Placement.{geometry_of};
ghost use Rattle.fdp_image.specs.Areas.{data_pages};
ghost use Rattle.fdp_image.specs.Reading.{size_in};
ghost use Rattle.fdp_rules.specs.Room.{namespace_ids};
ghost use Rattle.fdp_image.specs.Fits.{are_born, are_data_pages, blocks_of_all, has_namespace, is_born, is_handle_list, is_range_within, lie_within, lies_within};
ghost use Rattle.fdp_state.specs.Parts.{reading_of};

use crate::parts::Parts;
use crate::rows::space_of;
use fdp_base::{DriveConfig, Range};
use fdp_commands::NAMESPACE_IDS;

/// Whether there is a namespace with an identifier.
#[tactic(auto, unfolding(fdp_image::specs::Checkpoint::reading_of_state))]
pub fn has_namespace(parts: &Parts, nsid: u32) -> bool
    ensures { result ≡ has_namespace (reading_of parts.now) nsid }
{
    space_of(parts, nsid).is_some()
}

/// The size of a namespace in blocks, 0 where it is not there.
#[tactic(auto, unfolding(fdp_image::specs::Checkpoint::reading_of_state))]
pub fn size_of(parts: &Parts, nsid: u32) -> u64
    ensures { result ≡ size_in (reading_of parts.now) nsid }
{
    match space_of(parts, nsid) {
        Some(space) => space.size,
        None => 0,
    }
}

/// Whether so many blocks from an address on lie within a namespace that is there.
pub fn lies_within(parts: &Parts, nsid: u32, slba: u64, count: u64) -> bool
    ensures { result ≡ lies_within (reading_of parts.now) nsid slba count }
{
    has_namespace(parts, nsid) && ends_within(size_of(parts, nsid), slba, count)
}

fn ends_within(size: u64, slba: u64, count: u64) -> bool
    ensures { result ≡ nat_le (slba + count) size }
{
    slba <= size && count <= size - slba
}

/// Whether each range lies within a namespace.
pub fn lie_within(parts: &Parts, nsid: u32, ranges: &[Range]) -> bool
    ensures { result ≡ lie_within (reading_of parts.now) nsid ranges.now }
{
    ranges.iter().all(|x| is_range_within(parts, nsid, x))
}

/// Whether a range lies within a namespace; one of no blocks names none, and lies anywhere.
fn is_range_within(parts: &Parts, nsid: u32, range: &Range) -> bool
    ensures { result ≡ is_range_within (reading_of parts.now) nsid range.now }
{
    range.length == 0 || lies_within(parts, nsid, range.slba, u64::from(range.length))
}

/// Whether these are the numbers of data pages.
pub fn are_data_pages(config: &DriveConfig, pages: &[u32]) -> bool
    requires { IsInRange config.now }
    ensures { result ≡ are_data_pages config.now pages.now }
{
    let end = data_pages(config);
    pages.iter().all(|page| *page < end)
}

/// How many data pages there are.
pub fn data_pages(config: &DriveConfig) -> u32
    requires { IsInRange config.now }
    ensures { result ≡ data_pages (geometry_of config.now) }
{
    config.geometry().data_units() * config.unit_pages
}

/// Whether no namespace was created after a position.
pub fn are_born(parts: &Parts, position: u64) -> bool
    ensures { result ≡ are_born (reading_of parts.now) position }
{
    all_born(parts, &NAMESPACE_IDS, position)
}

fn all_born(parts: &Parts, ids: &[u32], position: u64) -> bool
    ensures { result ≡ list_all (λ nsid. is_born (reading_of parts.now) nsid position) ids.now }
{
    ids.iter().all(|nsid| is_born(parts, *nsid, position))
}

#[tactic(auto, unfolding(fdp_image::specs::Checkpoint::reading_of_state))]
fn is_born(parts: &Parts, nsid: u32, position: u64) -> bool
    ensures { result ≡ is_born (reading_of parts.now) nsid position }
{
    match space_of(parts, nsid) {
        Some(space) => space.birth <= position,
        None => true,
    }
}

/// How many blocks the namespaces have together.
pub fn blocks_of_all(parts: &Parts) -> u128
    ensures value { result ≡ blocks_of_all (reading_of parts.now) }
    ensures bound { result ≤ 2 ^ 68 }
{
    let mut all = 0;
    for nsid in &NAMESPACE_IDS {
        all += u128::from(size_of(parts, *nsid));
    }
    all
}

/// Whether there is a namespace.
pub fn has_any(parts: &Parts) -> bool
    ensures { result ≡ list_any (has_namespace (reading_of parts.now)) namespace_ids }
{
    has_any_of(parts, &NAMESPACE_IDS)
}

fn has_any_of(parts: &Parts, ids: &[u32]) -> bool
    ensures { result ≡ list_any (has_namespace (reading_of parts.now)) ids.now }
{
    ids.iter().any(|nsid| has_namespace(parts, *nsid))
}

/// Whether these may be the handles of a namespace, of so many that there are.
pub fn is_handle_list(count: u8, handles: &[u8]) -> bool
    ensures { result ≡ is_handle_list count handles.now }
{
    is_short_list(handles) && are_known(count, handles) && !has_repeat(handles)
}

fn is_short_list(handles: &[u8]) -> bool
    ensures { result ≡ (nat_lt 0 (length handles.now) && nat_le (length handles.now) 16) }
{
    0 < handles.len() && handles.len() <= 16
}

fn are_known(count: u8, handles: &[u8]) -> bool
    ensures { result ≡ list_all (λ ruh. nat_lt ruh count) handles.now }
{
    handles.iter().all(|ruh| *ruh < count)
}

/// Whether a number stands twice in the list.
#[tactic(auto, unfolding(fdp_base::specs::Numbers::has_repeat))]
fn has_repeat(list: &[u8]) -> bool
    ensures { result ≡ has_repeat list.now }
{
    match list.split_first() {
        Some((first, rest)) => rest.contains(first) || has_repeat(rest),
        None => false,
    }
}
