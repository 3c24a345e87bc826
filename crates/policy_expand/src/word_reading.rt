//! The words of a written line.
ghost use Rattle.std.specs.Prelude.{◌≡◌, IfSome, IfOk, map};
ghost use Rattle.acl_policy.specs.Words.{words_of, without_comment};
ghost use Rattle.std.specs.List.{list_all};
ghost use Rattle.policy_expand.specs.Visible;
ghost use Rattle.policy_expand.specs.Written.{word_text};

use crate::visible_word::Word;
use crate::written_fault::{LineFault, WrittenReason, wrong};
use acl_policy::{before_comment, next_word};
use std::alloc::Global;

// Whether a byte may stand in a word.
fn is_ink(byte: u8) -> bool
    ensures { result ≡ Visible.is_ink byte }
{
    byte > 32 && byte < 127 && byte != b'#'
}

// Whether all bytes of a word may stand in one.
fn is_ink_alone(word: &[u8]) -> bool
    ensures { result ≡ list_all Visible.is_ink word.now }
{
    let mut rest = word;
    'bytes: while !rest.is_empty() {
        if !is_ink(rest[0]) {
            return false;
        }
        rest = &rest[1..];
    }
    true
}

// Whether a word is seen.
fn is_visible_word(word: &[u8]) -> bool
    ensures { result ≡ Visible.is_visible_word word.now }
{
    !word.is_empty() && is_ink_alone(word)
}

/// A word of a written line. None: it has a byte that isn't seen, or none.
pub fn visible_word(bytes: &[u8]) -> Option<Word<'_>>
    ensures { IfSome result (λ word. word_text word ≡ bytes.now) }
{
    if is_visible_word(bytes) {
        Some(Word { bytes })
    } else {
        None
    }
}

/// The words of a written line up to its comment.
pub fn words_of_written_line<'a>(
    alloc: Global,
    line: &'a [u8],
) -> Result<Vec<Word<'a>>, LineFault<'a>>
    ensures { IfOk result (λ words. map word_text words.items ≡ words_of (without_comment line.now)) }
{
    let mut words = Vec::new(alloc);
    let mut rest = before_comment(line);
    'words: while let Some((bytes, more)) = next_word(rest) {
        let Some(word) = visible_word(bytes) else {
            return Err(wrong(WrittenReason::Unseen, bytes));
        };
        words.push(word)?;
        rest = more;
    }
    Ok(words)
}
