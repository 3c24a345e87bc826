//! The ends of a packet in words: addresses, and their ports.
ghost use Rattle.std.specs.Prelude.{◌≡◌, ◌==◌, codes, option_map};
ghost use Rattle.std.specs.List.{list_any};
ghost use Rattle.acl_policy.specs.Words.{words_of};
ghost use Rattle.acl_policy.specs.inner.WordReading.Numerals.{pair_in};
ghost use Rattle.acl_policy.specs.inner.WordReading.Traffic.{number_up_to_in, after_in};
ghost use Rattle.packet_questions.specs.Questions;
ghost use Rattle.packet_questions.specs.inner.Reading.{end_in, ends_in, named_in, ported_in, step};
ghost use Rattle.packet_questions.specs.inner.EndsRead.{ends_facts};
ghost use Rattle.packet_questions.specs.inner.Reading;

use crate::end::{End, Ends};
use crate::word_numbers::flags_of;
use acl_policy::{address_of, next_word, number_up_to};
use packet_view::Family;

// Whether a word has a colon.
fn has_colon(word: &[u8]) -> bool
    ensures { result ≡ list_any (λ b. b == 58) word.now }
{
    word.iter().any(|b| *b == b':')
}

// The family of an address in words.
fn family_of(word: &[u8]) -> Family
    ensures { result ≡ Questions.family_of word.now }
{
    if has_colon(word) {
        Family::V6
    } else {
        Family::V4
    }
}

// An address in words.
#[tactic(auto, unfolding(crate::specs::inner::Reading::end_in))]
fn end_of(word: &[u8]) -> Option<End>
    ensures { option_map (λ end. (end.family, end.address)) result ≡ end_in word.now }
{
    let family = family_of(word);
    let address = address_of(family, word)?;
    Some(End { family, address })
}

// The address that a text begins with, and what follows it.
fn next_end(text: &[u8]) -> Option<(End, &[u8])>
    ensures { option_map (λ r. ((r.0.family, r.0.address), words_of r.1.now)) result ≡ step end_in (words_of text.now) }
{
    let (word, text) = next_word(text)?;
    let end = end_of(word)?;
    Some((end, text))
}

// The port that a text begins with, and what follows it.
fn next_port(text: &[u8]) -> Option<(u16, &[u8])>
    ensures { option_map (λ r. (r.0, words_of r.1.now)) result ≡ step (number_up_to_in 65535) (words_of text.now) }
{
    let (word, text) = next_word(text)?;
    let port = number_up_to(word, u16::MAX)?;
    Some((port, text))
}

// Both ends, where they are of one family.
fn ends_by(source: End, dest: End) -> Option<Ends>
    ensures { option_map ends_facts result ≡ Reading.ends_by (source.family, source.address) (dest.family, dest.address) }
{
    if source.family != dest.family {
        return None;
    }
    Some(Ends {
        family: source.family,
        source: source.address,
        dest: dest.address,
    })
}

/// The two addresses that a text begins with, and what follows them.
#[tactic(auto, unfolding(crate::specs::inner::Reading::ends_in))]
pub fn next_ends(text: &[u8]) -> Option<(Ends, &[u8])>
    ensures { option_map (λ r. (ends_facts r.0, words_of r.1.now)) result ≡ ends_in (words_of text.now) }
{
    let (source, text) = next_end(text)?;
    let (dest, text) = next_end(text)?;
    let ends = ends_by(source, dest)?;
    Some((ends, text))
}

/// The two addresses that a text begins with, each with its port, and what follows them.
#[tactic(auto, unfolding(crate::specs::inner::Reading::ported_in))]
pub fn next_ported_ends(text: &[u8]) -> Option<(Ends, (u16, u16), &[u8])>
    ensures { option_map (λ r. ((ends_facts r.0, r.1), words_of r.2.now)) result ≡ ported_in (words_of text.now) }
{
    let (source, text) = next_end(text)?;
    let (from, text) = next_port(text)?;
    let (dest, text) = next_end(text)?;
    let (to, text) = next_port(text)?;
    let ends = ends_by(source, dest)?;
    Some((ends, (from, to), text))
}

/// What follows a name with which a text begins. `None`: it begins with another word, or has none.
#[tactic(auto, unfolding(acl_policy::specs::inner::WordReading::Traffic::after_in))]
pub fn text_behind<'a>(text: &'a [u8], name: &[u8]) -> Option<&'a [u8]>
    ensures { option_map (λ rest. words_of rest.now) result ≡ after_in name.now (words_of text.now) }
{
    let (word, rest) = next_word(text)?;
    if word == name { Some(rest) } else { None }
}

/// The number behind a name with which a text begins, a type or a code, and what follows it.
#[tactic(auto, unfolding(crate::specs::inner::Reading::named_in))]
pub fn next_named<'a>(text: &'a [u8], name: &[u8]) -> Option<(u8, &'a [u8])>
    ensures { option_map (λ r. (r.0, words_of r.1.now)) result ≡ named_in name.now (number_up_to_in 255) (words_of text.now) }
{
    let (word, text) = next_word(text_behind(text, name)?)?;
    let number = number_up_to(word, u16::from(u8::MAX))?;
    Some((number as u8, text))
}

/// The flags behind their name with which a text begins, and what follows them.
#[tactic(auto, unfolding(crate::specs::inner::Reading::named_in))]
pub fn next_flags(text: &[u8]) -> Option<(u8, &[u8])>
    ensures { option_map (λ r. (r.0, words_of r.1.now)) result ≡ named_in (codes "flags") pair_in (words_of text.now) }
{
    let (word, text) = next_word(text_behind(text, b"flags")?)?;
    let flags = flags_of(word)?;
    Some((flags, text))
}
