//! Rows of one size, one behind another.

ghost use Rattle.std.specs.Prelude.{◌≡◌, ℕ, ◌+◌, ◌*◌, ◌≤◌, List, drop, length, flat_map, All, IfOk};
ghost use Rattle.fdp_records.specs.Bytes.{items, placed};

use fdp_base::Sequence;
use std::alloc::{AllocError, Global};

/// A row of a list.
pub trait Row {
    /// How many bytes it takes.
    ghost width: { ℕ };

    ghost bytes_of: { Self → List ℕ };

    ghost read_from: { List ℕ → Self };

    /// What can be written.
    ghost Is: { Self → Type 0 };

    /// The numbers have the width of their fields.
    ghost Fits: { Self → Type 0 };

    fn size() -> usize
        ensures { result ≡ width };

    fn put(&self, into: &mut [u8], at: usize)
        requires room { at + width ≤ length into.old }
        requires is { Is self.now }
        ensures bytes { into.new ≡ placed at (bytes_of self.now) into.old }
        ensures fit { Fits self.now };

    /// It fails only for want of memory.
    fn read(alloc: Global, bytes: &[u8]) -> Result<Self, AllocError>
        requires { length bytes.now ≡ width }
        ensures { IfOk result (λ x. x ≡ read_from bytes.now) };

    ghost long: { (x : Self) → length (bytes_of x) ≡ width };
}

/// Writes the rows one behind another, from an offset on.
pub fn put_all<T: Row>(into: &mut [u8], at: usize, rows: &[T])
    requires room { at + T.width * length rows.now ≤ length into.old }
    requires are { All T.Is rows.now }
    ensures bytes { into.new ≡ placed at (flat_map T.bytes_of rows.now) into.old }
    ensures fit { All T.Fits rows.now }
{
    for (i, row) in rows.iter().enumerate() {
        row.put(into, at + T::size() * i);
    }
}

/// Reads so many rows that stand one behind another from an offset on. It fails only for want of memory.
pub fn read_all<T: Row + Drop>(
    alloc: Global,
    bytes: &[u8],
    at: usize,
    count: usize,
) -> Result<Sequence<T>, AllocError>
    requires { at + T.width * count ≤ length bytes.now }
    ensures { IfOk result (λ list. list ≡ items T.width T.read_from count (drop at bytes.now)) }
{
    let mut list = Vec::new(alloc);
    for i in 0..count {
        let from = at + T::size() * i;
        let row = T::read(alloc, &bytes[from..from + T::size()])?;
        list.push(row)?;
    }
    Ok(Sequence::from_vec(list))
}
