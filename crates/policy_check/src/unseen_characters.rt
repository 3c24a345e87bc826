//! Words with characters that aren't seen (Unicode: U+FEFF, the byte order mark, and U+00A0, the no-break space).
ghost use Rattle.std.specs.Prelude.{◌≡◌, ◌++◌, ◌∷◌, ℕ, List, IfSome, IsTrue};
ghost use Rattle.acl_policy.specs.Words.{words_of};
ghost use Rattle.policy_check.specs.Reasons.{IsUnseen, Stands};

use crate::reason::Reason;
use crate::word_finding::{Finding, of};
use crate::word_readers::read_next_word;

// Whether a word begins with the byte order mark, a character that isn't seen.
fn begins_with_mark(word: &[u8]) -> bool
    ensures { IsTrue result → (rest : List ℕ) × (word.now ≡ 239 ∷ 187 ∷ 191 ∷ rest) }
{
    matches!(word, [0xef, 0xbb, 0xbf, ..])
}

// Whether bytes of a word begin with the no-break space, a character that isn't seen.
fn begins_with_space(word: &[u8]) -> bool
    ensures { IsTrue result → (rest : List ℕ) × (word.now ≡ 194 ∷ 160 ∷ rest) }
{
    matches!(word, [0xc2, 0xa0, ..])
}

// Whether a word has the no-break space, a character that isn't seen, at any place.
fn has_no_break_space(word: &[u8]) -> bool
    ensures { IsTrue result → (front rest : List ℕ) × (word.now ≡ front ++ 194 ∷ 160 ∷ rest) }
{
    let mut rest = word;
    'bytes: while !rest.is_empty() {
        if begins_with_space(rest) {
            return true;
        }
        rest = &rest[1..];
    }
    false
}

fn unseen_in(word: &[u8]) -> Option<Reason>
    ensures { IfSome result (λ reason. IsUnseen reason word.now) }
{
    if begins_with_mark(word) {
        Some(Reason::ByteOrderMark)
    } else if has_no_break_space(word) {
        Some(Reason::NoBreakSpace)
    } else {
        None
    }
}

/// The first word of a text that has a character that isn't seen.
pub fn unseen(text: &[u8]) -> Option<Finding<'_>>
    ensures reason { IfSome result (λ found. IsUnseen found.reason found.word.now) }
    ensures word { IfSome result (λ found. Stands found.word.now (words_of text.now)) }
{
    let mut rest = text;
    'words: while let Some((word, more)) = read_next_word(rest) {
        if let Some(reason) = unseen_in(word) {
            return Some(of(reason, word));
        }
        rest = more;
    }
    None
}
