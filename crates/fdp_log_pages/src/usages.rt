ghost use Rattle.std.specs.Prelude.{◌≡◌, ◌+◌, ◌*◌, ◌==◌, ◌∷◌, flat_map};
ghost use Rattle.std.specs.List.{list_any};
ghost use Rattle.fdp_base.specs.Numbers.{numbers_below};
ghost use Rattle.fdp_layouts.specs.Usage.{usage_code};
ghost use Rattle.fdp_log_pages.specs.Usages.{gives, lists, usage_in, usages_log};
ghost use Rattle.fdp_pieces.specs.Parts.{PutsPiece};
ghost use Rattle.fdp_rules.specs.LogPages.{zeros};

use fdp_layouts::Usage;
use fdp_logs::{usage_frame, usage_head};
use fdp_pieces::{is_outside, put_piece};
use fdp_snapshot::Space;

/// Puts log 21h of so many handles: how many there are, and the usage of each.
pub fn put_usages(into: &mut [u8], offset: u64, handles: u8, places: &[Option<Space>])
    ensures { PutsPiece offset 0 (usages_log handles places.now) into.old into.new }
{
    put_piece(into, offset, 0, &usage_head(u16::from(handles)));
    put_each_usage(into, offset, handles, places);
}

fn put_each_usage(into: &mut [u8], offset: u64, handles: u8, places: &[Option<Space>])
    ensures { PutsPiece offset 8 (flat_map (λ ruh. usage_in places.now ruh ∷ zeros 7) (numbers_below handles)) into.old into.new }
{
    for ruh in 0..handles {
        put_usage(into, offset, ruh, places);
    }
}

/// Puts the usage of a handle, unless it lies outside.
fn put_usage(into: &mut [u8], offset: u64, ruh: u8, places: &[Option<Space>])
    ensures { PutsPiece offset (8 + 8 * ruh) (usage_in places.now ruh ∷ zeros 7) into.old into.new }
{
    let at = 8 + 8 * u64::from(ruh);
    if is_outside(into.len(), offset, at, 8) {
        return;
    }
    put_piece(into, offset, at, &usage_frame(usage_of(places, ruh)));
}

/// Who specified a handle for a namespace that uses it.
pub fn usage_of(places: &[Option<Space>], ruh: u8) -> Usage
    ensures { usage_code result ≡ usage_in places.now ruh }
{
    if is_given(places, ruh) {
        Usage::HostSpecified
    } else if is_listed(places, ruh) {
        Usage::ControllerSpecified
    } else {
        Usage::Unused
    }
}

fn is_given(places: &[Option<Space>], ruh: u8) -> bool
    ensures { result ≡ list_any (gives ruh) places.now }
{
    places.iter().any(|place| gives(place, ruh))
}

fn is_listed(places: &[Option<Space>], ruh: u8) -> bool
    ensures { result ≡ list_any (lists ruh) places.now }
{
    places.iter().any(|place| lists(place, ruh))
}

/// Whether a namespace lists a handle, and the host gave that list.
fn gives(place: &Option<Space>, ruh: u8) -> bool
    ensures { result ≡ gives ruh place.now }
{
    match place {
        Some(space) => space.given && has_handle(space, ruh),
        None => false,
    }
}

/// Whether a namespace lists a handle.
fn lists(place: &Option<Space>, ruh: u8) -> bool
    ensures { result ≡ lists ruh place.now }
{
    match place {
        Some(space) => has_handle(space, ruh),
        None => false,
    }
}

fn has_handle(space: &Space, ruh: u8) -> bool
    ensures { result ≡ list_any (λ listed. listed == ruh) space.now.handles }
{
    space.handles.as_slice().iter().any(|listed| *listed == ruh)
}
