//! The words of a line, and the pieces of a word.
ghost use Rattle.std.specs.Prelude.{◌≡◌, ◌<◌, ◌↔◌, ◌==◌, [], not, IsTrue, IfSome, length, option_map, position};
ghost use Rattle.acl_policy.specs.inner.WordReading.{next_in};
ghost use Rattle.acl_policy.specs.inner.WordReading.Numerals.{cut_in};
ghost use Rattle.acl_policy.specs.Words;
ghost use Rattle.acl_policy.specs.Words.{without_comment, words_of};

/// Whether a byte of a line stands between words: a space or a tab.
pub fn is_blank(byte: u8) -> bool
    ensures { result ≡ Words.is_blank byte }
{
    byte == b' ' || byte == b'\t'
}

// Where the first such byte of a line or of a word stands, where it has one.
fn place_of_byte(text: &[u8], byte: u8) -> Option<usize>
    ensures place { result ≡ position (λ b. b == byte) text.now }
    ensures within { IfSome result (λ i. i < length text.now) }
{
    text.iter().position(|b| *b == byte)
}

/// Where the first word of a text begins, where it has one.
pub fn word_start(text: &[u8]) -> Option<usize>
    ensures place { result ≡ position (λ b. not (Words.is_blank b)) text.now }
    ensures within { IfSome result (λ i. i < length text.now) }
{
    text.iter().position(|b| !is_blank(*b))
}

// Where the first blank of a text stands, where it has one.
fn word_end(text: &[u8]) -> Option<usize>
    ensures place { result ≡ position Words.is_blank text.now }
    ensures within { IfSome result (λ i. i < length text.now) }
{
    text.iter().position(|b| is_blank(*b))
}

/// A line up to its comment.
#[tactic(auto, unfolding(crate::specs::Words::without_comment))]
pub fn before_comment(line: &[u8]) -> &[u8]
    ensures { result.now ≡ without_comment line.now }
{
    match place_of_byte(line, b'#') {
        Some(start) => &line[..start],
        None => line,
    }
}

/// The first word of a text, and what follows it.
pub fn next_word(text: &[u8]) -> Option<(&[u8], &[u8])>
    ensures { option_map (λ r. (r.0.now, words_of r.1.now)) result ≡ next_in (words_of text.now) }
{
    let start = word_start(text)?;
    let (_, text) = text.split_at(start);
    let end = word_end(text).unwrap_or(text.len());
    Some(text.split_at(end))
}

/// Whether a text has no word.
pub fn is_end(text: &[u8]) -> bool
    ensures { IsTrue result ↔ (words_of text.now ≡ []) }
{
    next_word(text).is_none()
}

/// What stands before the first such byte of a word, and what after it.
#[tactic(auto, unfolding(crate::specs::inner::WordReading::Numerals::cut_in))]
pub fn cut_at(word: &[u8], byte: u8) -> Option<(&[u8], &[u8])>
    ensures { option_map (λ r. (r.0.now, r.1.now)) result ≡ cut_in byte word.now }
{
    let place = place_of_byte(word, byte)?;
    Some((&word[..place], &word[place + 1..]))
}
