//! Types and codes of ICMP in rules for both families.
ghost use Rattle.std.specs.Prelude.{◌≡◌, None, false, map};
ghost use Rattle.std.specs.List.{list_any};
ghost use Rattle.policy_expand.specs.IcmpParts;
ghost use Rattle.policy_expand.specs.IcmpParts.{IsOfOneIcmp, has_icmp_part};
ghost use Rattle.policy_expand.specs.Written.{Rule, list_words};
ghost use Rattle.policy_expand.specs.WrittenLines.{rule_written};

use crate::rows_of_rule::is_of_other;
use crate::visible_word::{Word, WordList};
use crate::written_line::WrittenRule;
use packet_view::Family;

// Whether a word names the type or the code of ICMP.
fn is_icmp_part(word: Word<'_>) -> bool
    ensures { result ≡ IcmpParts.is_icmp_part word.entry }
{
    word.bytes == b"type".as_slice() || word.bytes == b"code".as_slice()
}

// The first of these words that names the type or the code of ICMP.
fn icmp_part_among<'a>(words: &[Word<'a>]) -> Option<Word<'a>>
    ensures { result ≡ None → list_any IcmpParts.is_icmp_part words.now ≡ false }
{
    let mut rest = words;
    'words: while !rest.is_empty() {
        if is_icmp_part(rest[0]) {
            return Some(rest[0]);
        }
        rest = &rest[1..];
    }
    None
}

// The first word of these lists that names the type or the code of ICMP.
fn icmp_part_in<'a>(lists: &[WordList<'a>]) -> Option<Word<'a>>
    ensures { result ≡ None → has_icmp_part (map list_words lists.now) ≡ false }
{
    let mut rest = lists;
    'lists: while !rest.is_empty() {
        match icmp_part_among(rest[0].words.as_slice()) {
            Some(word) => return Some(word),
            None => {}
        }
        rest = &rest[1..];
    }
    None
}

// Whether one of these words may be an address of the family.
fn has_address(family: Family, words: &[Word<'_>]) -> bool
    ensures { result ≡ IcmpParts.has_address family words.now }
{
    let mut rest = words;
    'words: while !rest.is_empty() {
        if !is_of_other(family, rest[0].bytes) {
            return true;
        }
        rest = &rest[1..];
    }
    false
}

// Whether a rule may have an address of the family on each side.
fn has_sides(family: Family, rule: &WrittenRule<'_>) -> bool
    ensures { result ≡ IcmpParts.has_sides family (rule_written rule.now) }
{
    has_address(family, rule.sources.words.as_slice())
        && has_address(family, rule.dests.words.as_slice())
}

/// The word for the type or the code of ICMP in a rule for both families with addresses of each, in which it means
/// another message.
pub fn icmp_part_of_both<'a>(rule: &WrittenRule<'a>) -> Option<Word<'a>>
    ensures { result ≡ None → IsOfOneIcmp (Rule (rule_written rule.now)) }
{
    let [_, _] = rule.families.words.as_slice() else {
        return None;
    };
    if has_sides(Family::V4, rule) && has_sides(Family::V6, rule) {
        icmp_part_in(rule.rest.as_slice())
    } else {
        None
    }
}
