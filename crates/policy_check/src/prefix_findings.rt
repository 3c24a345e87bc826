//! The prefixes of a rule.
ghost use Rattle.std.specs.Prelude.{◌≡◌, ◌⊎◌, ◌++◌, [], ◌∷◌, ℕ, List, IfErr, IfOk, IfSome, IsTrue, MatchOption};
ghost use Rattle.acl_policy.specs.Prefixes.{IsPrefix};
ghost use Rattle.acl_policy.specs.Words.{words_of};
ghost use Rattle.policy_check.specs.Reasons.{HasDottedEnd, IsEndReason, IsLong, IsPrefixReason};

use crate::reason::Reason;
use crate::word_finding::{Finding, missing, of};
use crate::word_readers::{
    cut_word_at, read_address_word, read_next_word, read_number_word, read_prefix_word,
};
use acl_policy::width_of;
use packet_view::Family;

// Whether a prefix of a rule has more bits than an address of its family.
fn is_long(family: Family, word: &[u8]) -> bool
    ensures { IsTrue result → IsLong family word.now }
{
    let Some((front, bits)) = cut_word_at(word, b'/') else {
        return false;
    };
    match (read_address_word(family, front), read_number_word(bits)) {
        (Some(_), Some(length)) => length > u32::from(width_of(family)),
        _ => false,
    }
}

// What stands behind the last colon of a wrong prefix of a rule, where an IPv4 address may end it.
fn last_piece(word: &[u8]) -> Option<&[u8]>
    ensures { IfSome result (λ piece. (front : List ℕ) × (word.now ≡ front ++ 58 ∷ piece.now)) }
{
    let (_, mut piece) = cut_word_at(word, b':')?;
    'colons: while let Some((_, behind)) = cut_word_at(piece, b':') {
        piece = behind;
    }
    Some(piece)
}

// What stands before the length in the last piece of a rule's prefix, or all of it where there is no length.
fn before_length(word: &[u8]) -> &[u8]
    ensures { (rest : List ℕ) × (word.now ≡ result.now ++ rest) × ((rest ≡ []) ⊎ ((bits : List ℕ) × (rest ≡ 47 ∷ bits))) }
{
    match cut_word_at(word, b'/') {
        Some((address, _)) => address,
        None => word,
    }
}

// While a prefix is checked: the two groups that stand for the IPv4 address in which its IPv6 address ends.
fn dotted_end_of_wrong_prefix(word: &[u8]) -> Option<(u16, u16)>
    ensures { IfSome result (λ groups. HasDottedEnd word.now groups.0 groups.1) }
{
    let piece = last_piece(word)?;
    let number = read_address_word(Family::V4, before_length(piece))?;
    Some(((number / 65536) as u16, (number % 65536) as u16))
}

// The other family, of which a rule's wrong prefix may be.
fn other_family_of_prefix(family: Family) -> Family {
    match family {
        Family::V4 => Family::V6,
        Family::V6 => Family::V4,
    }
}

// Why a word is no prefix. `None`: it is one.
fn prefix_reason(family: Family, word: &[u8]) -> Option<Reason>
    ensures { MatchOption result ((p : ℕ × ℕ) × IsPrefix family word.now p) (IsPrefixReason family word.now) }
{
    let None = read_prefix_word(family, word) else {
        return None;
    };
    if is_long(family, word) {
        return Some(Reason::LongPrefix(width_of(family)));
    }
    if let Some(_) = read_prefix_word(other_family_of_prefix(family), word) {
        return Some(Reason::OtherFamily);
    }
    match (family, dotted_end_of_wrong_prefix(word)) {
        (Family::V6, Some((high, low))) => Some(Reason::DottedEnd(high, low)),
        _ => Some(Reason::NoPrefix),
    }
}

/// The text after the prefixes; what is wrong with them, where that is so.
pub fn ends(family: Family, text: &[u8]) -> Result<&[u8], Finding<'_>>
    ensures right { IfOk result (λ rest. (source dest : List ℕ) × (words_of text.now ≡ source ∷ dest ∷ words_of rest.now)) }
    ensures wrong { IfErr result (λ found. IsEndReason family (words_of text.now) found.reason found.word.now) }
{
    let Some((source, text)) = read_next_word(text) else {
        return Err(missing());
    };
    if let Some(reason) = prefix_reason(family, source) {
        return Err(of(reason, source));
    }
    let Some((dest, text)) = read_next_word(text) else {
        return Err(missing());
    };
    match prefix_reason(family, dest) {
        Some(reason) => Err(of(reason, dest)),
        None => Ok(text),
    }
}
