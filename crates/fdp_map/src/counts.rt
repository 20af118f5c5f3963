ghost use Rattle.std.specs.Prelude.{◌≡◌, ℕ, ◌+◌, ◌^◌, ◌<◌, ◌≤◌, length, IfSome, slice_get, slice_index};
ghost use Rattle.std.specs.Option.{option_flatten};
ghost use Rattle.fdp_map.specs.Counting.{as_number};
ghost use Rattle.fdp_map.specs.MapTable.{IsCut, is_mapped_in, stored_in, stored_in_row};
ghost use Rattle.fdp_map.specs.PageLists.{data_pages, page_at, places_of, size_at, table_of};

use crate::lists::{PageList, page_in};
use crate::mapped::{Mapped, placed};
use fdp_base::Geometry;

/// Counts a block that is replaced no longer.
pub fn lower(counts: &mut [u64], mapped: Option<Mapped>)
    requires { IfSome mapped (λ x. (x.rg < length counts.old) × (1 ≤ slice_index counts.old x.rg)) }
    ensures counts { (rg : ℕ) → slice_index counts.new rg + as_number (is_mapped_in rg mapped) ≡ slice_index counts.old rg }
    ensures rows { length counts.new ≡ length counts.old }
{
    if let Some(mapped) = mapped {
        counts[usize::from(mapped.rg)] -= 1;
    }
}

/// Counts a block that is put.
pub fn raise(counts: &mut [u64], mapped: Option<Mapped>)
    requires { IfSome mapped (λ x. (x.rg < length counts.old) × (slice_index counts.old x.rg + 1 < 2 ^ 64)) }
    ensures counts { (rg : ℕ) → slice_index counts.new rg ≡ slice_index counts.old rg + as_number (is_mapped_in rg mapped) }
    ensures rows { length counts.new ≡ length counts.old }
{
    if let Some(mapped) = mapped {
        counts[usize::from(mapped.rg)] += 1;
    }
}

/// Counts what each group stores.
pub fn count_lists(geometry: Geometry, lists: &[PageList]) -> [u64; 16]
    requires cut { IsCut geometry }
    requires rows { length lists.now ≡ 16 }
    requires sizes { (nsid : ℕ) → size_at lists.now nsid ≤ 262144 }
    requires pages { (nsid lba : ℕ) → IfSome (page_at lists.now nsid lba) (λ page. page < data_pages geometry) }
    ensures counts { (rg : ℕ) → slice_index result rg ≡ stored_in (table_of geometry lists.now) rg }
    ensures rows { length result ≡ 16 }
{
    let mut counts = [0; 16];
    for index in 0..lists.len() {
        count_list(&mut counts, geometry, lists[index].as_slice());
    }
    counts
}

/// Counts the blocks of a namespace, each for its group.
fn count_list(counts: &mut [u64], geometry: Geometry, list: &[Option<u32>])
    requires cut { IsCut geometry }
    requires rows { length counts.old ≡ 16 }
    requires room { (rg : ℕ) → slice_index counts.old rg + length list.now < 2 ^ 64 }
    requires pages { (lba : ℕ) → IfSome (option_flatten (slice_get list.now lba)) (λ page. page < data_pages geometry) }
    ensures counts { (rg : ℕ) → slice_index counts.new rg ≡ slice_index counts.old rg + stored_in_row (places_of geometry list.now) rg 0 (length list.now) }
    ensures rows { length counts.new ≡ length counts.old }
{
    for lba in 0..list.len() {
        raise(counts, placed(geometry, page_in(list, lba as u64)));
    }
}
