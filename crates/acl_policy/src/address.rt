//! Addresses as text (RFC 4291, section 2.2, without an embedded IPv4 address).
ghost use Rattle.std.specs.Prelude.{◌≡◌, ◌≤◌, ◌<◌, ◌^◌, ◌+◌, IfSome, length, option_map, position, zip, drop};
ghost use Rattle.packet_view.specs.Addresses.{address_limit};
ghost use Rattle.acl_policy.specs.inner.WordReading.Prefixes;
ghost use Rattle.acl_policy.specs.inner.WordReading.Numerals.{octet_in, piece_in};
ghost use Rattle.acl_policy.specs.inner.WordReading.Prefixes.{address_in, cut_double_in, four_parts_in, groups_address_in, groups_in, is_double};

use crate::line_words::cut_at;
use crate::number_parsing::{group_of, octet_of};
use packet_view::Family;

#[tactic(auto, unfolding(crate::specs::inner::WordReading::Numerals::piece_in))]
fn octet_before_dot(text: &[u8]) -> Option<(u8, &[u8])>
    ensures { option_map (λ r. (r.0, r.1.now)) result ≡ piece_in 46 octet_in text.now }
{
    let (first, rest) = cut_at(text, b'.')?;
    let octet = octet_of(first)?;
    Some((octet, rest))
}

/// An IPv4 address as text: four parts with dots between them.
#[tactic(auto, unfolding(crate::specs::inner::WordReading::Prefixes::four_parts_in))]
fn four_parts_of(text: &[u8]) -> Option<u32>
    ensures { result ≡ four_parts_in text.now }
{
    let (a, text) = octet_before_dot(text)?;
    let (b, text) = octet_before_dot(text)?;
    let (c, text) = octet_before_dot(text)?;
    let d = octet_of(text)?;
    Some(((u32::from(a) * 256 + u32::from(b)) * 256 + u32::from(c)) * 256 + u32::from(d))
}

/// Groups of an IPv6 address as one number, and how many they are.
#[derive(Clone, Copy)]
struct Groups {
    number: u128,
    count: u32,
    ghost few: { count ≤ 8 },
    ghost fits: { number < 65536 ^ count },
}

/// The groups of an IPv6 address, or of an end of one, as text. `None`: another form, or more than eight.
fn groups_of(text: &[u8]) -> Option<Groups>
    ensures { option_map (λ groups. (groups.number, groups.count)) result ≡ groups_in text.now }
{
    if text.is_empty() {
        return Some(Groups {
            number: 0,
            count: 0,
        });
    }
    let mut number = 0;
    let mut rest = text;
    for count in 0..8 {
        let Some((first, more)) = cut_at(rest, b':') else {
            let group = group_of(rest)?;
            return Some(Groups {
                number: number * 65536 + u128::from(group),
                count: count + 1,
            });
        };
        let group = group_of(first)?;
        number = number * 65536 + u128::from(group);
        rest = more;
    }
    None
}

/// What stands before the first `::`, and what after it.
#[tactic(auto, unfolding(crate::specs::inner::WordReading::Prefixes::cut_double_in))]
fn cut_at_double_colon(text: &[u8]) -> Option<(&[u8], &[u8])>
    ensures { option_map (λ r. (r.0.now, r.1.now)) result ≡ cut_double_in text.now }
{
    let place = double_colon(text)?;
    Some((&text[..place], &text[place + 2..]))
}

/// Where the first `::` of an IPv6 address stands, where it has one.
fn double_colon(text: &[u8]) -> Option<usize>
    ensures place { result ≡ position is_double (zip text.now (drop 1 text.now)) }
    ensures within { IfSome result (λ i. i + 2 ≤ length text.now) }
{
    text.iter()
        .zip(text.iter().skip(1))
        .position(|(a, b)| *a == b':' && *b == b':')
}

/// An address of groups at both ends and at least one group of zeros between them.
fn spread(front: Groups, back: Groups) -> Option<u128>
    ensures { result ≡ Prefixes.spread (front.number, front.count) (back.number, back.count) }
{
    if front.count + back.count > 7 {
        return None;
    }
    if front.count == 0 {
        return Some(back.number);
    }
    Some(front.number * 65536u128.pow(8 - front.count) + back.number)
}

#[tactic(auto, unfolding(crate::specs::inner::WordReading::Prefixes::groups_address_in))]
fn groups_address_of(text: &[u8]) -> Option<u128>
    ensures { result ≡ groups_address_in text.now }
{
    match cut_at_double_colon(text) {
        Some((before, after)) => {
            let front = groups_of(before)?;
            let back = groups_of(after)?;
            spread(front, back)
        }
        None => {
            let groups = groups_of(text)?;
            if groups.count == 8 {
                Some(groups.number)
            } else {
                None
            }
        }
    }
}

/// An address of the family, as a number.
pub fn address_of(family: Family, text: &[u8]) -> Option<u128>
    ensures value { result ≡ address_in family text.now }
    ensures fits { IfSome result (λ address. address < address_limit family) }
{
    match family {
        Family::V4 => {
            let address = four_parts_of(text)?;
            Some(u128::from(address))
        }
        Family::V6 => groups_address_of(text),
    }
}
