//! Lines of a text.

ghost use Rattle.std.specs.Prelude.{◌≡◌, ◌+◌, ◌++◌, ◌∷◌, ◌<◌, ◌≤◌, MatchOption, IfSome, bytes_eq, count_by, length, take};
ghost use Rattle.fdp_trace.specs.Reader.FrontOf.{IsFront, is_line_feed};
ghost use Rattle.fdp_reader.specs.Form.{IsLine};
ghost use Rattle.fdp_reader.specs.Lines.{IsNextLine, SameLines};

/// The first line of a text, without its end, and the text behind it, where the line has an end.
pub fn next_line(text: &[u8]) -> Option<(&[u8], &[u8])>
    ensures line { MatchOption result (IsLine text.now) (λ x. IsNextLine text.now x.0.now x.1.now) }
    ensures shorter { IfSome result (λ x. length x.1.now < length text.now) }
{
    let end = line_len(text);
    if end == text.len() {
        return None;
    }
    Some((&text[..end], &text[end + 1..]))
}

/// The bytes in front of the first line feed.
fn line_len(text: &[u8]) -> usize
    ensures { IsFront is_line_feed text.now result }
{
    for (i, b) in text.iter().enumerate() {
        if *b == b'\n' {
            return i;
        }
    }
    text.len()
}

/// How many bytes the whole lines have that two texts have alike at their fronts: the first line in which they differ begins behind so many bytes. It takes no memory.
pub fn same_lines(left: &[u8], right: &[u8]) -> usize
    ensures { SameLines left.now right.now result }
{
    let mut other = left;
    let mut rest = right;
    while let Some((line, after)) = next_line(other) {
        let Some((own, behind)) = next_line(rest) else {
            return right.len() - rest.len();
        };
        if !is_same(line, own) {
            return right.len() - rest.len();
        }
        other = after;
        rest = behind;
    }
    right.len() - rest.len()
}

fn is_same(left: &[u8], right: &[u8]) -> bool
    ensures { result ≡ bytes_eq left.now right.now }
{
    left == right
}

/// The number of the line that begins at a place of a text, a count of bytes; the first line is 1.
pub fn line_at(text: &[u8], place: usize) -> usize
    requires { place ≤ length text.now }
    ensures { result ≡ count_by is_line_feed (take place text.now) + 1 }
{
    let mut number = 1;
    for b in &text[..place] {
        if *b == b'\n' {
            number += 1;
        }
    }
    number
}
