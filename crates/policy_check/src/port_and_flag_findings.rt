//! The parts after a protocol, one by one.
ghost use Rattle.std.specs.Prelude.{◌≡◌, ◌++◌, ℕ, List, IfErr, IfOk};
ghost use Rattle.acl_policy.specs.Traffic.{IsRange, OfTcp, Parts};
ghost use Rattle.acl_policy.specs.Words.{words_of};
ghost use Rattle.policy_check.specs.Reasons.{HasRange, IsPartReason, IsRangeReason};

use crate::reason::Reason;
use crate::word_finding::{Finding, missing, of};
use crate::word_readers::{
    cut_word_at, is_read_word, read_flags_word, read_next_word, read_number_word, read_range_word,
};

// Why a word is no range of ports, types or codes, where it is none: the last number of it is too large, or it is
// upside down, or another form.
fn range_fault(word: &[u8], most: u16) -> Reason
    requires { (range : ℕ × ℕ) → IsRange most word.now range → ⊥ }
    ensures { IsRangeReason most word.now result }
{
    match cut_word_at(word, b'-') {
        None => match read_number_word(word) {
            Some(n) if n > u32::from(most) => Reason::TooLarge(most),
            _ => Reason::NoRange,
        },
        Some((low, high)) => match (read_number_word(low), read_number_word(high)) {
            (_, Some(n)) if n > u32::from(most) => Reason::TooLarge(most),
            (Some(a), Some(b)) if b < a => Reason::UpsideDown,
            _ => Reason::NoRange,
        },
    }
}

/// The text after a part with a range, which may be left out; what is wrong with it, where that is so.
pub fn after_range<'a>(text: &'a [u8], name: &[u8], most: u16) -> Result<&'a [u8], Finding<'a>>
    ensures right { IfOk result (λ rest. (used : List (List ℕ)) × (words_of text.now ≡ used ++ words_of rest.now)) }
    ensures wrong { IfErr result (λ found. (parts : Parts) (used : List (List ℕ)) → HasRange parts name.now most
        → IsPartReason parts (used ++ words_of text.now) found.reason found.word.now) }
{
    let Some((word, rest)) = read_next_word(text) else {
        return Ok(text);
    };
    if !is_read_word(word, name) {
        return Ok(text);
    }
    let Some((value, rest)) = read_next_word(rest) else {
        return Err(missing());
    };
    match read_range_word(value, most) {
        Some(_) => Ok(rest),
        None => Err(of(range_fault(value, most), value)),
    }
}

/// The text after both ranges of a rule, of ports or of a type and a code; what is wrong with them, where that is so.
pub fn after_both<'a>(
    text: &'a [u8],
    one: &[u8],
    two: &[u8],
    most: u16,
) -> Result<&'a [u8], Finding<'a>>
    ensures right { IfOk result (λ rest. (used : List (List ℕ)) × (words_of text.now ≡ used ++ words_of rest.now)) }
    ensures wrong { IfErr result (λ found. (parts : Parts) → HasRange parts one.now most → HasRange parts two.now most
        → IsPartReason parts (words_of text.now) found.reason found.word.now) }
{
    match after_range(text, one, most) {
        Ok(text) => after_range(text, two, most),
        Err(found) => Err(found),
    }
}

/// The text after the flags of a rule for TCP, which may be left out; what is wrong with them, where that is so.
pub fn after_flags(text: &[u8]) -> Result<&[u8], Finding<'_>>
    ensures right { IfOk result (λ rest. (used : List (List ℕ)) × (words_of text.now ≡ used ++ words_of rest.now)) }
    ensures wrong { IfErr result (λ found. (used : List (List ℕ))
        → IsPartReason OfTcp (used ++ words_of text.now) found.reason found.word.now) }
{
    let Some((word, rest)) = read_next_word(text) else {
        return Ok(text);
    };
    if !is_read_word(word, b"flags") {
        return Ok(text);
    }
    let Some((value, rest)) = read_next_word(rest) else {
        return Err(missing());
    };
    match read_flags_word(value) {
        Some(_) => Ok(rest),
        None => Err(of(Reason::NoFlags, value)),
    }
}
