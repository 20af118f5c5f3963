//! Behind the head stands one byte for each page that tells its state, and behind these the spare and the block of each page.
//!
//! A program writes spare and block at once, and then Whole; an erase writes Blank for all pages of the unit at once. A page is
//! programmed only where it is blank, so a stop before the last write leaves a page that is blank, as it was. No call writes
//! Torn: it is read in a file where it stands.
ghost use Rattle.std.specs.Prelude.{◌≡◌, ◌≤◌, ◌<◌};
ghost use Rattle.fdp_base.specs.Geometry.{IsValidGeometry, all_pages};
ghost use Rattle.fdp_flash.specs.Layout.{IsIn, page_number};
ghost use Rattle.fdp_flash_file.specs.Places.{spare_place, file_size, state_place};

use crate::head::HEAD_BYTES;
use fdp_base::{Geometry, Spot};

/// How long a spare is.
pub const SPARE_BYTES: usize = 32;

/// The state of a page, as its byte tells it.
#[derive(Clone, Copy, Debug, PartialEq, Eq)]
pub enum PageState {
    Blank,
    Whole,
    Torn,
}

impl PageState {
    ghost use Rattle.fdp_flash_file.specs.declared.page.PageState.{PageState};
    ghost use Rattle.fdp_flash_file.specs.PageStates.{state_code};

    /// The byte that stands for a state.
    pub fn code(self) -> u8
        ensures { result ≡ state_code self }
    {
        match self {
            PageState::Blank => 0,
            PageState::Whole => 1,
            PageState::Torn => 2,
        }
    }

    /// The state that a byte stands for. A byte that stands for none is taken for a torn page.
    pub fn of_code(code: u8) -> PageState
        ensures known { (state : PageState) → code ≡ state_code state → result ≡ state }
        ensures other { 2 < code → result ≡ PageState.Torn }
    {
        match code {
            0 => PageState::Blank,
            1 => PageState::Whole,
            _ => PageState::Torn,
        }
    }
}

/// Where a page stands in the file.
#[derive(Clone, Copy, Debug, PartialEq, Eq)]
pub struct Place {
    /// Its number.
    pub page: usize,
    /// The place of its state.
    pub state: u64,
    /// The place of its spare, which its block follows.
    pub spare: u64,
}

/// How long the file of a flash is.
pub fn file_bytes(geometry: Geometry) -> u64
    requires { IsValidGeometry geometry }
    ensures { result ≡ file_size geometry }
{
    spare_at(geometry, geometry.all_pages())
}

/// The place of a page.
pub fn place_of(geometry: Geometry, at: Spot) -> Place
    requires valid { IsValidGeometry geometry }
    requires place { IsIn geometry at }
    ensures page { result.page ≡ page_number geometry at }
    ensures within { result.page < all_pages geometry }
    ensures state { result.state ≡ state_place (page_number geometry at) }
    ensures spare { result.spare ≡ spare_place geometry (page_number geometry at) }
{
    let page = at.unit * geometry.unit_pages + at.page;
    Place {
        page: page as usize,
        state: HEAD_BYTES as u64 + u64::from(page),
        spare: spare_at(geometry, page),
    }
}

fn spare_at(geometry: Geometry, page: u32) -> u64
    requires valid { IsValidGeometry geometry }
    requires page { page ≤ all_pages geometry }
    ensures { result ≡ spare_place geometry page }
{
    let states = HEAD_BYTES as u64 + u64::from(geometry.all_pages());
    states + u64::from(page) * (SPARE_BYTES as u64 + u64::from(geometry.block))
}
