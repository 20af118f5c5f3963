//! The page of a block: 4 bytes, one more than its number, or 0 for none.

ghost use Rattle.std.specs.Prelude.{◌≡◌, ◌≤◌, ◌+◌, length, IfOk, refl};
ghost use Rattle.std.specs.Int.{to_le_bytes, w32};
ghost use Rattle.fdp_snapshot.specs.Rows.{IsEntry, entry_of, page_by, page_bytes, page_in};
ghost use Rattle.fdp_snapshot.specs.Sizes.{AnyPage};

use crate::row::Row;
use fdp_records::{put, read_u32};
use std::alloc::{AllocError, Global};

impl Row for Option<u32> {
    ghost width = { 4 };

    ghost bytes_of = { page_bytes };

    ghost read_from = { page_in };

    ghost Is = { IsEntry };

    ghost Fits = { AnyPage };

    ghost long = { λ x. refl };

    fn size() -> usize {
        4
    }

    fn put(&self, into: &mut [u8], at: usize) {
        put(into, at, &page_entry(*self).to_le_bytes());
    }

    fn read(alloc: Global, bytes: &[u8]) -> Result<Option<u32>, AllocError> {
        let _alloc = alloc; // proof
        Ok(entry_page(read_u32(bytes, 0)))
    }
}

/// The number that stands for a page.
pub fn page_entry(page: Option<u32>) -> u32
    requires { IsEntry page }
    ensures { result ≡ entry_of page }
{
    match page {
        Some(page) => page + 1,
        None => 0,
    }
}

fn entry_page(entry: u32) -> Option<u32>
    ensures { result ≡ page_by entry }
{
    if entry == 0 { None } else { Some(entry - 1) }
}
