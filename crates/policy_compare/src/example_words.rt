//! The words of a packet, as `racl ask` takes them.
ghost use Rattle.std.specs.Prelude.{◌≡◌, ◌+◌, ◌<◌, ◌≤◌, ◌++◌, length};
ghost use Rattle.packet_view.specs.Addresses.{address_limit};
ghost use Rattle.packet_view.specs.Tuples.{tuple_facts};
ghost use Rattle.policy_compare.specs.Examples.{bare_ends, bare_protocol, carried_words, end_words, kind_and_code, ported_ends, way_words};

use acl_policy::icmp_number;
use packet_view::{Direction, Family, Fields, Tuple};
use packet_words::{push_line_flags, push_policy_address};
use racl_io::{Numeral, Piece, push_name};

/// The words of a packet's direction and interface.
pub fn push_way_words(piece: &mut Piece, direction: Direction, interface: u8)
    requires { length piece.old + 32 ≤ 262144 }
    ensures text { piece.new ≡ piece.old ++ way_words direction interface }
    ensures short { length piece.new ≤ length piece.old + 32 }
{
    match direction {
        Direction::Inbound => piece.push(b"in"),
        Direction::Outbound => piece.push(b"out"),
    }
    piece.push(b" ");
    let named = if interface == 0 {
        None
    } else {
        Some(interface)
    };
    push_name(piece, named);
}

// An address, and its port.
fn push_end_words(piece: &mut Piece, family: Family, address: u128, port: u16)
    requires fits { address < address_limit family }
    requires room { length piece.old + 124 ≤ 262144 }
    ensures text { piece.new ≡ piece.old ++ end_words family address port }
    ensures short { length piece.new ≤ length piece.old + 124 }
{
    push_policy_address(piece, family, address);
    piece.push(b" ");
    Numeral::of(u64::from(port)).push(piece);
}

// Both ends with their ports.
fn push_ported_ends(piece: &mut Piece, tuple: &Tuple, from: u16, to: u16)
    requires { length piece.old + 249 ≤ 262144 }
    ensures text { piece.new ≡ piece.old ++ ported_ends (tuple_facts tuple.now) from to }
    ensures short { length piece.new ≤ length piece.old + 249 }
{
    push_end_words(piece, tuple.family, tuple.source, from);
    piece.push(b" ");
    push_end_words(piece, tuple.family, tuple.dest, to);
}

// Both ends without ports.
fn push_bare_ends(piece: &mut Piece, tuple: &Tuple)
    requires { length piece.old + 199 ≤ 262144 }
    ensures text { piece.new ≡ piece.old ++ bare_ends (tuple_facts tuple.now) }
    ensures short { length piece.new ≤ length piece.old + 199 }
{
    push_policy_address(piece, tuple.family, tuple.source);
    piece.push(b" ");
    push_policy_address(piece, tuple.family, tuple.dest);
}

// The protocol of a packet of which no fields are seen.
fn push_bare_protocol(piece: &mut Piece, family: Family, proto: u8)
    requires { length piece.old + 25 ≤ 262144 }
    ensures text { piece.new ≡ piece.old ++ bare_protocol family proto }
    ensures short { length piece.new ≤ length piece.old + 25 }
{
    if proto == 6 {
        piece.push(b"fragment tcp ");
    } else if proto == 17 {
        piece.push(b"fragment udp ");
    } else if proto == icmp_number(family) {
        piece.push(b"fragment icmp ");
    } else {
        Numeral::of(u64::from(proto)).push(piece);
        piece.push(b" ");
    }
}

// The type and code of ICMP.
fn push_kind_and_code(piece: &mut Piece, kind: u8, code: u8)
    requires { length piece.old + 60 ≤ 262144 }
    ensures text { piece.new ≡ piece.old ++ kind_and_code kind code }
    ensures short { length piece.new ≤ length piece.old + 60 }
{
    piece.push(b" type ");
    Numeral::of(u64::from(kind)).push(piece);
    piece.push(b" code ");
    Numeral::of(u64::from(code)).push(piece);
}

/// The words of what a packet carries.
pub fn push_carried_words(piece: &mut Piece, tuple: &Tuple)
    requires { length piece.old + 270 ≤ 262144 }
    ensures text { piece.new ≡ piece.old ++ carried_words (tuple_facts tuple.now) tuple.now.fields }
    ensures short { length piece.new ≤ length piece.old + 270 }
{
    match tuple.fields {
        Fields::Absent => {
            push_bare_protocol(piece, tuple.family, tuple.proto);
            push_bare_ends(piece, tuple);
        }
        Fields::Ports { from, to } => {
            piece.push(b"udp ");
            push_ported_ends(piece, tuple, from, to);
        }
        Fields::Tcp { from, to, flags } => {
            piece.push(b"tcp ");
            push_ported_ends(piece, tuple, from, to);
            push_line_flags(piece, flags);
        }
        Fields::Icmp { kind, code } => {
            piece.push(b"icmp ");
            push_bare_ends(piece, tuple);
            push_kind_and_code(piece, kind, code);
        }
    }
}
