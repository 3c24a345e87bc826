//! What a rule says beyond its addresses: the protocol, and the parts after it.
ghost use Rattle.std.specs.Prelude.{◌≡◌, option_map};
ghost use Rattle.acl_policy.specs.inner.WordReading.Traffic.{protocol_flags_in, protocol_in, protocol_ranges_in, parts_in, traffic_in};
ghost use Rattle.acl_policy.specs.Traffic.{parts_of};
ghost use Rattle.acl_policy.specs.Words.{words_of};

use crate::line_words::{is_end, next_word};
use crate::number_parsing::number_up_to;
use crate::ranges_and_flags::{EVERY, flags_part, ranges_of};
use crate::width_and_icmp_of_family::icmp_number;
use packet_view::Family;

const TCP: u8 = 6;

const UDP: u8 = 17;

/// The protocol, and the ranges and flags that the parts of a rule give.
#[derive(Clone, Copy)]
pub struct Traffic {
    pub proto: u8,
    pub first: (u16, u16),
    pub second: (u16, u16),
    pub value: u8,
    pub mask: u8,
}

/// The number of a protocol, and 0 for every protocol.
#[tactic(auto, unfolding(crate::specs::inner::WordReading::Traffic::protocol_in))]
pub fn protocol_of(family: Family, word: &[u8]) -> Option<u8>
    ensures { result ≡ protocol_in family word.now }
{
    if word == b"any".as_slice() {
        return Some(0);
    }
    if word == b"tcp".as_slice() {
        return Some(TCP);
    }
    if word == b"udp".as_slice() {
        return Some(UDP);
    }
    if word == b"icmp".as_slice() {
        return Some(icmp_number(family));
    }
    let number = number_up_to(word, u16::from(u8::MAX))?;
    Some(number as u8)
}

/// The ranges that may follow a protocol, and the text after them: ports, or a type and a code.
#[tactic(auto, unfolding(crate::specs::inner::WordReading::Traffic::protocol_ranges_in))]
fn protocol_part_ranges(
    family: Family,
    proto: u8,
    text: &[u8],
) -> Option<((u16, u16), (u16, u16), &[u8])>
    ensures { option_map (λ r. (r.0, r.1, words_of r.2.now)) result
        ≡ protocol_ranges_in (parts_of family proto) (words_of text.now) }
{
    if proto == TCP || proto == UDP {
        return ranges_of(text, b"sport", b"dport", u16::MAX);
    }
    if proto == icmp_number(family) {
        return ranges_of(text, b"type", b"code", u16::from(u8::MAX));
    }
    Some((EVERY, EVERY, text))
}

/// The flags that may follow a protocol, and the text after them.
#[tactic(auto, unfolding(crate::specs::inner::WordReading::Traffic::protocol_flags_in))]
fn protocol_part_flags(family: Family, proto: u8, text: &[u8]) -> Option<((u8, u8), &[u8])>
    ensures { option_map (λ r. (r.0, words_of r.1.now)) result
        ≡ protocol_flags_in (parts_of family proto) (words_of text.now) }
{
    if proto == TCP {
        flags_part(text)
    } else {
        Some(((0, 0), text))
    }
}

/// What a protocol and the parts after it say, where nothing else follows.
#[tactic(auto, unfolding(crate::specs::inner::WordReading::Traffic::parts_in))]
fn parts_after(family: Family, proto: u8, text: &[u8]) -> Option<Traffic>
    ensures { result ≡ parts_in (parts_of family proto) proto (words_of text.now) }
{
    let (first, second, text) = protocol_part_ranges(family, proto, text)?;
    let ((value, mask), text) = protocol_part_flags(family, proto, text)?;
    if is_end(text) {
        Some(Traffic {
            proto,
            first,
            second,
            value,
            mask,
        })
    } else {
        None
    }
}

/// What follows the addresses of a rule: nothing, or a protocol and its parts.
#[tactic(auto, unfolding(crate::specs::inner::WordReading::Traffic::traffic_in))]
pub fn traffic_of(family: Family, text: &[u8]) -> Option<Traffic>
    ensures { result ≡ traffic_in family (words_of text.now) }
{
    let Some((word, text)) = next_word(text) else {
        return Some(Traffic {
            proto: 0,
            first: EVERY,
            second: EVERY,
            value: 0,
            mask: 0,
        });
    };
    let proto = protocol_of(family, word)?;
    parts_after(family, proto, text)
}
