//! The words of wanted verdicts.
ghost use Rattle.std.specs.Prelude.{◌≡◌};
ghost use Rattle.acl_policy.specs.Words.{words_of};
ghost use Rattle.compared_verdicts.specs.Expectations;

use crate::expectation::Wanted;
use crate::numbers::rule_number_of;
use acl_policy::{is_end, next_word};
use session_state::Verdict;

// The verdicts that a lone word wants.
fn effect_of(word: &[u8]) -> Option<Wanted>
    ensures { result ≡ Expectations.effect_in word.now }
{
    if word == b"pass".as_slice() {
        Some(Wanted::Pass)
    } else if word == b"drop".as_slice() {
        Some(Wanted::Drop)
    } else {
        None
    }
}

// The verdict of a passing packet that such a word names.
fn passing_of(kind: &[u8]) -> Option<Wanted>
    ensures { result ≡ Expectations.passing_in kind.now }
{
    if kind == b"session".as_slice() {
        Some(Wanted::Exactly(Verdict::Session))
    } else if kind == b"not-ip".as_slice() {
        Some(Wanted::Exactly(Verdict::NotIp))
    } else {
        None
    }
}

// The verdict of a dropped packet that such a word names, where the session or its table has no room.
fn roomless_of(kind: &[u8]) -> Option<Wanted>
    ensures { result ≡ Expectations.roomless_in kind.now }
{
    if kind == b"worn".as_slice() {
        Some(Wanted::Exactly(Verdict::Worn))
    } else if kind == b"full".as_slice() {
        Some(Wanted::Exactly(Verdict::Full))
    } else if kind == b"no-pages".as_slice() {
        Some(Wanted::Exactly(Verdict::NoPages))
    } else {
        None
    }
}

// The verdict of a dropped packet that such a word names.
fn dropping_of(kind: &[u8]) -> Option<Wanted>
    ensures { result ≡ Expectations.dropping_in kind.now }
{
    if kind == b"default".as_slice() {
        Some(Wanted::Exactly(Verdict::ByDefault))
    } else if kind == b"malformed".as_slice() {
        Some(Wanted::Exactly(Verdict::Malformed))
    } else if kind == b"short".as_slice() {
        Some(Wanted::Exactly(Verdict::Short))
    } else {
        roomless_of(kind)
    }
}

// The verdict that two words want, of which the second isn't `rule`.
fn kind_of(effect: &[u8], kind: &[u8]) -> Option<Wanted>
    ensures { result ≡ Expectations.kind_in effect.now kind.now }
{
    match effect_of(effect) {
        Some(Wanted::Pass) => passing_of(kind),
        Some(Wanted::Drop) => dropping_of(kind),
        _ => None,
    }
}

// The verdicts of any rule that words want whose first is this one.
fn any_rule_of(effect: &[u8]) -> Option<Wanted>
    ensures { result ≡ Expectations.any_rule_in effect.now }
{
    match effect_of(effect) {
        Some(Wanted::Pass) => Some(Wanted::PassByRule),
        Some(Wanted::Drop) => Some(Wanted::DropByRule),
        _ => None,
    }
}

// The verdicts of the rule with this number that words want whose first is this one.
fn rule_of(effect: &[u8], number: Option<u16>) -> Option<Wanted>
    ensures { result ≡ Expectations.rule_wanted effect.now number }
{
    let Some(number) = number else {
        return None;
    };
    match effect_of(effect) {
        Some(Wanted::Pass) => Some(Wanted::Exactly(Verdict::Permit(number))),
        Some(Wanted::Drop) => Some(Wanted::Exactly(Verdict::Deny(number))),
        _ => None,
    }
}

// The verdict of the rule with this number that words want whose first and last are these.
fn reflecting_of(effect: &[u8], number: Option<u16>, last: &[u8]) -> Option<Wanted>
    ensures { result ≡ Expectations.reflecting_in effect.now number last.now }
{
    let Some(number) = number else {
        return None;
    };
    if effect == b"pass".as_slice() && last == b"reflect".as_slice() {
        Some(Wanted::Exactly(Verdict::Reflect(number)))
    } else {
        None
    }
}

// The verdicts of rules that words want: the first, and those behind `rule`.
#[tactic(auto, unfolding(crate::specs::Expectations::ruled_in))]
fn ruled_of(effect: &[u8], text: &[u8]) -> Option<Wanted>
    ensures { result ≡ Expectations.ruled_in effect.now (words_of text.now) }
{
    let Some((digits, text)) = next_word(text) else {
        return any_rule_of(effect);
    };
    let Some((last, text)) = next_word(text) else {
        return rule_of(effect, rule_number_of(digits));
    };
    if !is_end(text) {
        return None;
    }
    reflecting_of(effect, rule_number_of(digits), last)
}

/// The verdicts that the words of a text want.
#[tactic(auto, unfolding(crate::specs::Expectations::wanted_in))]
pub fn wanted_of(text: &[u8]) -> Option<Wanted>
    ensures { result ≡ Expectations.wanted_in (words_of text.now) }
{
    let Some((effect, text)) = next_word(text) else {
        return None;
    };
    let Some((kind, text)) = next_word(text) else {
        return effect_of(effect);
    };
    if kind == b"rule".as_slice() {
        return ruled_of(effect, text);
    }
    if !is_end(text) {
        return None;
    }
    kind_of(effect, kind)
}
