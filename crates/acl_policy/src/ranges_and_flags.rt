//! The parts of a rule after its protocol: ranges of numbers, and flags.
ghost use Rattle.std.specs.Prelude.{◌≡◌, codes, option_map};
ghost use Rattle.acl_policy.specs.inner.WordReading.Traffic.{after_in, flags_in, part_in, range_in, ranges_in};
ghost use Rattle.acl_policy.specs.Traffic.{every};
ghost use Rattle.acl_policy.specs.Words.{words_of};

use crate::line_words::{cut_at, next_word};
use crate::number_parsing::{hex_pair_of, number_up_to};

/// Every port, type or code.
pub const EVERY: (u16, u16) = (0, u16::MAX);

/// One number, or the least and the greatest with `-` between them.
#[tactic(auto, unfolding(crate::specs::inner::WordReading::Traffic::range_in))]
pub fn range_of(word: &[u8], most: u16) -> Option<(u16, u16)>
    ensures { result ≡ range_in most word.now }
{
    let Some((low, high)) = cut_at(word, b'-') else {
        let number = number_up_to(word, most)?;
        return Some((number, number));
    };
    let low = number_up_to(low, most)?;
    let high = number_up_to(high, most)?;
    if low <= high { Some((low, high)) } else { None }
}

/// A value and a mask with `/` between them.
#[tactic(auto, unfolding(crate::specs::inner::WordReading::Traffic::flags_in))]
pub fn flags_of_word(word: &[u8]) -> Option<(u8, u8)>
    ensures { result ≡ flags_in word.now }
{
    let (value, mask) = cut_at(word, b'/')?;
    let value = hex_pair_of(value)?;
    let mask = hex_pair_of(mask)?;
    Some((value, mask))
}

/// The text after a name before a range or flags. `None`: the first word is another, or there is none.
#[tactic(auto, unfolding(crate::specs::inner::WordReading::Traffic::after_in))]
fn after_part_name<'a>(text: &'a [u8], name: &[u8]) -> Option<&'a [u8]>
    ensures { option_map (λ rest. words_of rest.now) result ≡ after_in name.now (words_of text.now) }
{
    let (word, rest) = next_word(text)?;
    if word == name { Some(rest) } else { None }
}

/// The range of a part, and the text after it. Where the text doesn't begin with the part's name,
/// that is every number.
#[tactic(auto, unfolding(crate::specs::inner::WordReading::Traffic::part_in))]
fn range_part<'a>(text: &'a [u8], name: &[u8], most: u16) -> Option<((u16, u16), &'a [u8])>
    ensures { option_map (λ r. (r.0, words_of r.1.now)) result
        ≡ part_in name.now (range_in most) every (words_of text.now) }
{
    let Some(rest) = after_part_name(text, name) else {
        return Some((EVERY, text));
    };
    let (word, rest) = next_word(rest)?;
    let range = range_of(word, most)?;
    Some((range, rest))
}

/// The flags of a rule, and the text after them. Where the text doesn't begin with `flags`, no flag
/// counts.
#[tactic(auto, unfolding(crate::specs::inner::WordReading::Traffic::part_in))]
pub fn flags_part(text: &[u8]) -> Option<((u8, u8), &[u8])>
    ensures { option_map (λ r. (r.0, words_of r.1.now)) result
        ≡ part_in (codes "flags") flags_in (0, 0) (words_of text.now) }
{
    let Some(rest) = after_part_name(text, b"flags") else {
        return Some(((0, 0), text));
    };
    let (word, rest) = next_word(rest)?;
    let flags = flags_of_word(word)?;
    Some((flags, rest))
}

/// Two parts with ranges, and the text after them.
#[tactic(auto, unfolding(crate::specs::inner::WordReading::Traffic::ranges_in))]
pub fn ranges_of<'a>(
    text: &'a [u8],
    one: &[u8],
    two: &[u8],
    most: u16,
) -> Option<((u16, u16), (u16, u16), &'a [u8])>
    ensures { option_map (λ r. (r.0, r.1, words_of r.2.now)) result
        ≡ ranges_in most one.now two.now (words_of text.now) }
{
    let (first, text) = range_part(text, one, most)?;
    let (second, text) = range_part(text, two, most)?;
    Some((first, second, text))
}
