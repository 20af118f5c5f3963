//! Parts of a line.

ghost use Rattle.std.specs.Prelude.{◌≡◌, ◌==◌, drop, take};
ghost use Rattle.std.specs.List.{after_first, before_first};
ghost use Rattle.fdp_trace.specs.Reader.FrontOf.{IsFront};

/// What stands before the first of a byte, or all where it stands nowhere.
pub fn before(bytes: &[u8], end: u8) -> &[u8]
    ensures { result.now ≡ before_first (λ b. b == end) bytes.now }
{
    &bytes[..place_of(bytes, end)]
}

/// What stands behind the first of a byte, or nothing where it stands nowhere.
pub fn after(bytes: &[u8], end: u8) -> &[u8]
    ensures { result.now ≡ after_first (λ b. b == end) bytes.now }
{
    let place = place_of(bytes, end);
    if place == bytes.len() {
        return &[];
    }
    &bytes[place + 1..]
}

/// Where the first of a byte stands, or the length where it stands nowhere.
fn place_of(bytes: &[u8], end: u8) -> usize
    ensures { IsFront (λ b. b == end) bytes.now result }
{
    for (i, b) in bytes.iter().enumerate() {
        if *b == end {
            return i;
        }
    }
    bytes.len()
}

/// So many bytes at the front, or all.
pub fn front(bytes: &[u8], count: usize) -> &[u8]
    ensures { result.now ≡ take count bytes.now }
{
    if count >= bytes.len() {
        return bytes;
    }
    &bytes[..count]
}

/// What stands behind so many bytes at the front, or nothing.
pub fn behind(bytes: &[u8], count: usize) -> &[u8]
    ensures { result.now ≡ drop count bytes.now }
{
    if count >= bytes.len() {
        return &[];
    }
    &bytes[count..]
}
