ghost use Rattle.std.specs.Prelude.{◌≡◌, ℕ, ◌+◌, ◌≤◌, ◌++◌, List, drop, length, take, true};
ghost use Rattle.fdp_pieces.specs.Parts.{PutsPiece};

/// Puts a piece of a page, which begins at this place of it, into a buffer that has room for a part of the page from an offset on. What of
/// the piece lies outside of that part is left out.
pub fn put_piece(into: &mut [u8], offset: u64, at: u64, piece: &[u8])
    ensures { PutsPiece offset at piece.now into.old into.new }
{
    let skipped = offset.saturating_sub(at).min(piece.len() as u64) as usize;
    let start = at.saturating_sub(offset).min(into.len() as u64) as usize;
    let count = (piece.len() - skipped).min(into.len() - start);
    put(into, start, &piece[skipped..skipped + count]);
}

/// Whether all of a piece of so many bytes, which begins at this place of a page, lies outside of the part of so many bytes from an offset on: it
/// need not be put.
pub fn is_outside(size: usize, offset: u64, at: u64, bytes: usize) -> bool
    ensures { result ≡ true → (piece old : List ℕ) → length piece ≡ bytes → length old ≡ size → PutsPiece offset at piece old old }
{
    bytes as u64 <= offset.saturating_sub(at) || size as u64 <= at.saturating_sub(offset)
}

/// Puts bytes into a buffer.
fn put(into: &mut [u8], start: usize, bytes: &[u8])
    requires { start + length bytes.now ≤ length into.old }
    ensures { into.new ≡ take start into.old ++ bytes.now ++ drop (start + length bytes.now) into.old }
{
    into[start..start + bytes.len()].copy_from_slice(bytes);
}
