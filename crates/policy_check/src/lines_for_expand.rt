//! Lines of a form that `racl expand` takes, and no policy has.
ghost use Rattle.std.specs.Prelude.{◌≡◌, ◌<◌, ◌∷◌, ℕ, IfSome, None, length, nat_lt, position};
ghost use Rattle.std.specs.List.{list_any};
ghost use Rattle.std.specs.Str.{bytes_eq};
ghost use Rattle.std.specs.Str.Lines.{lines};
ghost use Rattle.acl_policy.specs.Words.{words_of};
ghost use Rattle.policy_check.specs.Complaints.{line_words};
ghost use Rattle.policy_check.specs.ForExpand;
ghost use Rattle.policy_check.specs.ForExpand.{IsForExpandAt, is_include, is_list, is_rule_of_several, is_set};

use crate::word_readers::read_next_word;
use acl_policy::before_comment;

// Whether a word of a line that may be for `racl expand` is this one.
fn is_name(word: &[u8], name: &[u8]) -> bool
    ensures { result ≡ bytes_eq word.now name.now }
{
    word == name
}

// Whether a byte shows that a word is a list, or names a set.
fn is_list_sign(byte: u8) -> bool
    ensures { result ≡ ForExpand.is_list_sign byte }
{
    byte == b',' || byte == b'@'
}

// Whether a word is a list, or names a set.
fn is_list_word(word: &[u8]) -> bool
    ensures { result ≡ is_list word.now }
{
    let mut left = word;
    'bytes: while !left.is_empty() {
        if is_list_sign(left[0]) {
            return true;
        }
        left = &left[1..];
    }
    false
}

// Whether a word of a text is a list, or names a set.
fn has_list(text: &[u8]) -> bool
    ensures { result ≡ list_any is_list (words_of text.now) }
{
    let mut left = text;
    'words: while let Some((word, rest)) = read_next_word(left) {
        if is_list_word(word) {
            return true;
        }
        left = rest;
    }
    false
}

// Whether a text has two words and more.
fn has_two_words(text: &[u8]) -> bool
    ensures { result ≡ nat_lt 1 (length (words_of text.now)) }
{
    let Some((_, rest)) = read_next_word(text) else {
        return false;
    };
    read_next_word(rest).is_some()
}

// Whether a line defines a set.
fn is_set_line(text: &[u8]) -> bool
    ensures { result ≡ is_set (words_of text.now) }
{
    let Some((first, rest)) = read_next_word(text) else {
        return false;
    };
    let Some((_, rest)) = read_next_word(rest) else {
        return false;
    };
    match read_next_word(rest) {
        Some(_) => is_name(first, b"set"),
        None => false,
    }
}

// Whether a line includes a file.
fn is_include_line(text: &[u8]) -> bool
    ensures { result ≡ is_include (words_of text.now) }
{
    let Some((first, rest)) = read_next_word(text) else {
        return false;
    };
    let Some((_, rest)) = read_next_word(rest) else {
        return false;
    };
    match read_next_word(rest) {
        Some(_) => false,
        None => is_name(first, b"include"),
    }
}

// Whether a line is a rule of which `racl expand` makes several, or one with the words of a list.
fn is_rule_line(text: &[u8]) -> bool
    ensures { result ≡ is_rule_of_several (words_of text.now) }
{
    let Some((first, rest)) = read_next_word(text) else {
        return false;
    };
    let Some((_, rest)) = read_next_word(rest) else {
        return false;
    };
    match read_next_word(rest) {
        Some((family, rest)) => {
            (is_name(first, b"in") || is_name(first, b"out"))
                && has_two_words(rest)
                && (is_name(family, b"ip") || has_list(rest))
        }
        None => false,
    }
}

// Whether a line has a form that `racl expand` takes, and no policy has.
fn is_for_expand(line: &[u8]) -> bool
    ensures { result ≡ ForExpand.is_for_expand (line_words line.now) }
{
    let text = before_comment(line);
    is_set_line(text) || is_include_line(text) || is_rule_line(text)
}

// The place of the first line of a text that has such a form.
fn place_for_expand(text: &str) -> Option<usize>
    ensures place { result ≡ position (λ line. ForExpand.is_for_expand (line_words line)) (lines text.now) }
    ensures within { IfSome result (λ place. place < length text.now) }
{
    text.lines().position(|line| is_for_expand(line.as_bytes()))
}

/// The number of the first line of a text that has a form which `racl expand` takes and no policy has.
pub fn line_for_expand(text: &[u8]) -> Option<u64>
    ensures some { IfSome result (IsForExpandAt text.now) }
    ensures none { result ≡ None → (number : ℕ) → IsForExpandAt text.now number → ⊥ }
{
    let Ok(text) = str::from_utf8(text) else {
        return None;
    };
    match place_for_expand(text) {
        Some(place) => Some(place as u64 + 1),
        None => None,
    }
}
