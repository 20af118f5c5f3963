//! The pages of a checkpoint, one at a time.

ghost use Rattle.std.specs.Prelude.{◌≡◌, ◌≤◌, ◌+◌, ◌*◌, ◌^◌, ◌++◌, ℕ, All, drop, length, take};
ghost use Rattle.fdp_base.specs.Geometry.{IsBlockSize};
ghost use Rattle.fdp_snapshot.specs.Checkpoint.{page_list_bytes};
ghost use Rattle.fdp_snapshot.specs.Content.{all_blocks, entry_in};
ghost use Rattle.fdp_snapshot.specs.Fixed.{fixed_size};
ghost use Rattle.fdp_snapshot.specs.Rows.{IsEntry, zeros};

use crate::encode::FIXED_SIZE;
use crate::page::page_entry;
use crate::state::PageList;
use fdp_records::put;

/// Writes the bytes of a checkpoint that stand on its page with this number, behind the fixed part and the pages of the blocks zeros.
/// It looks for each entry through the lists of the namespaces, at most sixteen, and takes no memory.
pub fn put_page(fixed: &[u8], pages: &[PageList], number: usize, into: &mut [u8])
    requires fixed { length fixed.now ≡ fixed_size }
    requires pages { All (λ list. All IsEntry list) pages.now }
    requires block { IsBlockSize (length into.old) }
    requires number { number ≤ 262144 }
    ensures { (rest : ℕ) → (number + 1) * length into.old ≤ length fixed.now + length (page_list_bytes pages.now) + rest → into.new ≡ take (length into.old) (drop (number * length into.old) (fixed.now ++ page_list_bytes pages.now ++ zeros rest)) }
{
    let words = into.len() / 4;
    for i in 0..words {
        let word = word_at(fixed, pages, number * words + i);
        put(into, 4 * i, &word);
    }
}

/// The four bytes of a checkpoint with this number.
fn word_at(fixed: &[u8], pages: &[PageList], word: usize) -> [u8; 4]
    requires fixed { length fixed.now ≡ fixed_size }
    requires pages { All (λ list. All IsEntry list) pages.now }
    requires word { word ≤ 2 ^ 40 }
    ensures { (rest : ℕ) → 4 * word + 4 ≤ length fixed.now + length (page_list_bytes pages.now) + rest → result ≡ take 4 (drop (4 * word) (fixed.now ++ page_list_bytes pages.now ++ zeros rest)) }
{
    if word < FIXED_SIZE / 4 {
        let mut bytes = [0; 4];
        bytes.copy_from_slice(&fixed[4 * word..4 * word + 4]);
        bytes
    } else {
        entry_at(pages, word - FIXED_SIZE / 4).to_le_bytes()
    }
}

/// The number that stands for the page of a block, by its place among those of all namespaces; 0 behind their end.
fn entry_at(pages: &[PageList], place: usize) -> u32
    requires { All (λ list. All IsEntry list) pages.now }
    ensures { result ≡ entry_in (all_blocks pages.now) place }
{
    let mut left = place;
    for list in pages {
        let entries = list.as_slice();
        if left < entries.len() {
            return page_entry(entries[left]);
        }
        left -= entries.len();
    }
    0
}
