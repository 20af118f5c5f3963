ghost use Rattle.std.specs.Prelude.{◌≡◌, ◌<◌, ◌≤◌, [], ◌∷◌, ◌||◌, MatchOption, IfSome, length};
ghost use Rattle.fdp_trace.specs.Words.{is_blank, words_of};
ghost use Rattle.fdp_trace.specs.Reader.FrontOf.{IsFront};

/// The first word of a line and what stands behind it.
pub fn next_word(line: &[u8]) -> Option<(&[u8], &[u8])>
    ensures word { MatchOption result (words_of line.now ≡ []) (λ x. words_of line.now ≡ x.0.now ∷ words_of x.1.now) }
    ensures shorter { IfSome result (λ x. length x.1.now < length line.now) }
{
    let line = skip_blanks(line);
    let end = word_len(line);
    if end == 0 {
        return None;
    }
    Some((&line[..end], &line[end..]))
}

/// A line from its first word on.
fn skip_blanks(line: &[u8]) -> &[u8]
    ensures words { words_of result.now ≡ words_of line.now }
    ensures shorter { length result.now ≤ length line.now }
    ensures begins { IsFront is_blank result.now 0 → result.now ≡ [] }
{
    let mut rest = line;
    while let [first, after @ ..] = rest {
        if !is_blank(*first) {
            return rest;
        }
        rest = after;
    }
    rest
}

/// The bytes in front of the first blank.
fn word_len(line: &[u8]) -> usize
    ensures { IsFront is_blank line.now result }
{
    for (i, b) in line.iter().enumerate() {
        if is_blank(*b) {
            return i;
        }
    }
    line.len()
}

/// How many words a line has.
pub fn count_words(line: &[u8]) -> usize
    ensures { result ≡ length (words_of line.now) }
{
    let mut count = 0;
    let mut rest = line;
    while let Some((_, after)) = next_word(rest) {
        count += 1;
        rest = after;
    }
    count
}

pub fn is_blank(b: u8) -> bool
    ensures { result ≡ is_blank b }
{
    b == b' ' || b == b'\t'
}
