//! Addresses as text: four numbers, or groups of hexadecimal digits (RFC 5952).
ghost use Rattle.std.specs.Prelude.{◌≡◌, ◌+◌, ◌*◌, ◌<◌, ◌≤◌, ◌++◌, length};
ghost use Rattle.std.specs.Char.{digit_char};
ghost use Rattle.std.specs.Net.Addr.{ipv6_segments};
ghost use Rattle.std.specs.Net.Text;
ghost use Rattle.std.specs.Net.Text.{groups_text, hex, hex_groups_text, ipv4_text, ipv6_text};
ghost use Rattle.packet_view.specs.Addresses.{address_limit};
ghost use Rattle.packet_words.specs.PacketWords.{address_text, policy_address};

use packet_view::Family;
use racl_io::{Numeral, Piece};
use std::net::Ipv6Addr;

/// A hexadecimal digit in the text of an address, or of TCP flags.
pub fn hex_digit(value: u16) -> u8
    requires { value < 16 }
    ensures { result ≡ digit_char value }
{
    if value < 10 {
        b'0' + value as u8
    } else {
        b'a' + (value - 10) as u8
    }
}

// How many zeros the four digits of a group of an IPv6 address begin with, the last digit apart.
fn leading_zeros(group: u16) -> usize
    ensures value { result ≡ Text.leading_zero_digits group }
    ensures within { result < 4 }
{
    match group {
        0x1000.. => 0,
        0x100.. => 1,
        0x10.. => 2,
        _ => 3,
    }
}

// A group of an IPv6 address as text: its hexadecimal digits without leading zeros.
#[tactic(auto, unfolding(std::specs::Net::Text::hex))]
fn push_address_group(piece: &mut Piece, group: u16)
    requires { length piece.old + 4 ≤ 262144 }
    ensures text { piece.new ≡ piece.old ++ hex group }
    ensures short { length piece.new ≤ length piece.old + 4 }
{
    let digits = [
        hex_digit(group / 0x1000),
        hex_digit(group / 0x100 % 16),
        hex_digit(group / 0x10 % 16),
        hex_digit(group % 16),
    ];
    piece.push(&digits[leading_zeros(group)..]);
}

// Groups of an IPv6 address as text, with colons between them.
fn push_address_groups(piece: &mut Piece, groups: &[u16])
    requires { length piece.old + 5 * length groups.now ≤ 262144 }
    ensures text { piece.new ≡ piece.old ++ groups_text groups.now }
    ensures short { length piece.new ≤ length piece.old + 5 * length groups.now }
{
    if let [first, rest @ ..] = groups {
        push_address_group(piece, *first);
        'others: for group in rest {
            piece.push(b":");
            push_address_group(piece, *group);
        }
    }
}

// Where the longest run of zeros among the groups of an IPv6 address begins, and how long it is; of two such runs the
// first.
fn longest_zero_run(groups: &[u16]) -> (usize, usize)
    ensures value { result ≡ Text.longest_zero_run groups.now }
    ensures within { result.0 + result.1 ≤ length groups.now }
{
    let mut start = groups.len();
    let mut len = 0;
    let mut run = 0;
    for i in (0..groups.len()).rev() {
        run = if groups[i] == 0 { run + 1 } else { 0 };
        if run >= len {
            start = i;
            len = run;
        }
    }
    (start, len)
}

// The groups of an IPv6 address as text, with `::` for the longest run of zeros where that has more than one.
#[tactic(auto, unfolding(std::specs::Net::Text::hex_groups_text))]
fn push_shortened(piece: &mut Piece, groups: &[u16])
    requires few { length groups.now ≤ 8 }
    requires room { length piece.old + 42 ≤ 262144 }
    ensures text { piece.new ≡ piece.old ++ hex_groups_text groups.now }
    ensures short { length piece.new ≤ length piece.old + 42 }
{
    let (start, len) = longest_zero_run(groups);
    if len > 1 {
        push_address_groups(piece, &groups[..start]);
        piece.push(b"::");
        push_address_groups(piece, &groups[start + len..]);
    } else {
        push_address_groups(piece, groups);
    }
}

fn push_dotted(piece: &mut Piece, octets: [u8; 4])
    requires { length piece.old + 99 ≤ 262144 }
    ensures text { piece.new ≡ piece.old ++ ipv4_text octets }
    ensures short { length piece.new ≤ length piece.old + 99 }
{
    let [a, b, c, d] = octets;
    Numeral::of(u64::from(a)).push(piece);
    piece.push(b".");
    Numeral::of(u64::from(b)).push(piece);
    piece.push(b".");
    Numeral::of(u64::from(c)).push(piece);
    piece.push(b".");
    Numeral::of(u64::from(d)).push(piece);
}

// The address of IPv6.
fn push_six(piece: &mut Piece, address: Ipv6Addr)
    requires { length piece.old + 106 ≤ 262144 }
    ensures text { piece.new ≡ piece.old ++ ipv6_text (ipv6_segments address) }
    ensures short { length piece.new ≤ length piece.old + 106 }
{
    match address.to_ipv4_mapped() {
        Some(four) => {
            piece.push(b"::ffff:");
            push_dotted(piece, four.octets());
        }
        None => push_shortened(piece, &address.segments()),
    }
}

/// An address of this family.
#[tactic(auto, unfolding(std::specs::Net::Addr::IsIpv6OfBits))]
pub fn push_address(piece: &mut Piece, family: Family, address: u128)
    requires fits { address < address_limit family }
    requires room { length piece.old + 106 ≤ 262144 }
    ensures text { piece.new ≡ piece.old ++ address_text family address }
    ensures short { length piece.new ≤ length piece.old + 106 }
{
    match family {
        Family::V4 => push_dotted(piece, (address as u32).to_be_bytes()),
        Family::V6 => push_six(piece, Ipv6Addr::from_bits(address)),
    }
}

/// An address of this family, as policies write it: one of IPv6 in groups alone.
#[tactic(auto, unfolding(std::specs::Net::Addr::IsIpv6OfBits))]
pub fn push_policy_address(piece: &mut Piece, family: Family, address: u128)
    requires fits { address < address_limit family }
    requires room { length piece.old + 99 ≤ 262144 }
    ensures text { piece.new ≡ piece.old ++ policy_address family address }
    ensures short { length piece.new ≤ length piece.old + 99 }
{
    match family {
        Family::V4 => push_dotted(piece, (address as u32).to_be_bytes()),
        Family::V6 => push_shortened(piece, &Ipv6Addr::from_bits(address).segments()),
    }
}
