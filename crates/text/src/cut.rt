// A text is cut into words at its blanks, one word at a time.
ghost use Rattle.std.specs.Iterator.{YieldsFirstRef, item_count};
ghost use Rattle.std.specs.List.{position_or_len};
ghost use Rattle.std.specs.Prelude.{◌≡◌, ◌≤◌, [], length, MatchOption};
ghost use Rattle.text.specs.Cut.{Cut, letter};
ghost use Rattle.text.specs.Text.{words, blank};

// Space, line feed, carriage return, tab.
fn is_blank(c: u8) -> bool
    ensures { result ≡ blank c }
{
    // No `matches!`: its test takes twice as many instructions.
    c == b' ' || c == b'\n' || c == b'\r' || c == b'\t'
}

// How many blanks stand in front. A loop, here and below, for speed: `position` takes twice as long over a long word.
fn blanks(s: &[u8]) -> usize
    ensures within { result ≤ length s.now }
    ensures place { result ≡ position_or_len letter s.now }
{
    for (i, c) in s.iter().enumerate() {
        if !is_blank(*c) {
            return i;
        }
    }
    s.len()
}

// How many bytes stand before the first blank.
fn word_len(s: &[u8]) -> usize
    ensures within { result ≤ length s.now }
    ensures place { result ≡ position_or_len blank s.now }
{
    for (i, c) in s.iter().enumerate() {
        if is_blank(*c) {
            return i;
        }
    }
    s.len()
}

// The first word, and what stands after it; none if there are only blanks.
pub fn next_word(s: &[u8]) -> Option<(&[u8], &[u8])>
    ensures { MatchOption result (words s.now ≡ []) (λ x. Cut s.now x.0.now x.1.now) }
{
    let start = &s[blanks(s)..];
    if start.is_empty() {
        return None;
    }
    Some(start.split_at(word_len(start)))
}

// The words of a text, one after the other.
#[derive(Drop)]
pub(crate) struct Words<'a> {
    rest: &'a [u8],
}

impl<'a> Words<'a> {
    pub(crate) fn of(text: &'a [u8]) -> Words<'a>
        ensures { result.rest.now ≡ text.now }
    {
        Words { rest: text }
    }
}

impl<'a> Iterator for Words<'a> {
    type Item = &'a [u8];

    ghost next_gives = { YieldsFirstRef (λ s. words s.rest.now) };

    ghost remaining = { item_count (λ s. words s.rest.now) };

    fn next(&mut self) -> Option<&'a [u8]> {
        let (word, after) = next_word(self.rest)?;
        self.rest = after;
        Some(word)
    }
}
