ghost use Rattle.std.specs.Prelude.{◌≡◌, ℕ, ◌+◌, ◌<◌, length};
ghost use Rattle.std.specs.List.{list_any};
ghost use Rattle.fdp_layouts.specs.Frame.{covers, is_stray, first_reserved};

/// The bytes of a field.
#[derive(Clone, Copy, Debug)]
pub struct Span {
    pub at: usize,
    pub len: usize,
}

/// The first byte outside these fields that is not zero.
#[tactic(auto, unfolding(crate::specs::Frame::first_reserved))]
pub fn first_reserved(bytes: &[u8], fields: &[Span]) -> Option<usize>
    ensures { result ≡ first_reserved (length bytes.now) fields.now bytes.now }
{
    for i in 0..bytes.len() {
        if is_stray(bytes, fields, i) {
            return Some(i);
        }
    }
    None
}

fn is_stray(bytes: &[u8], fields: &[Span], i: usize) -> bool
    requires { i < length bytes.now }
    ensures { result ≡ is_stray fields.now bytes.now i }
{
    bytes[i] != 0 && !is_field(fields, i)
}

fn is_field(fields: &[Span], i: usize) -> bool
    ensures { result ≡ list_any (covers i) fields.now }
{
    fields
        .iter()
        .any(|span| span.at <= i && i - span.at < span.len)
}
