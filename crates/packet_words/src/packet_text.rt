//! What is told of a packet behind its verdict.
ghost use Rattle.std.specs.Prelude.{◌≡◌, ◌+◌, ◌<◌, ◌≤◌, ◌++◌, length};
ghost use Rattle.packet_view.specs.Addresses.{address_limit};
ghost use Rattle.packet_view.specs.Frames.{frame_facts};
ghost use Rattle.packet_view.specs.declared.tuple.Fields.TheVariants.{Absent};
ghost use Rattle.packet_view.specs.Tuples.{tuple_facts};
ghost use Rattle.packet_words.specs.PacketTexts.{carried_told, from_told, packet_told, seen_told, to_told, tuple_told, way_told};
ghost use Rattle.packet_words.specs.PacketWords.{address_text};

use crate::address_text::push_address;
use crate::line_text::{has_fields, push_line_flags, push_line_protocol, push_numbered};
use packet_view::{Direction, Family, Fields, Frame, Tuple};
use racl_io::Piece;

// The direction in the text of a packet, where its frame shows one.
fn push_way(piece: &mut Piece, frame: Frame)
    requires { length piece.old + 4 ≤ 262144 }
    ensures text { piece.new ≡ piece.old ++ way_told (frame_facts frame) }
    ensures short { length piece.new ≤ length piece.old + 4 }
{
    match frame {
        Frame::Ip(Direction::Inbound, _) => piece.push(b" in"),
        Frame::Ip(Direction::Outbound, _) => piece.push(b" out"),
        Frame::NotIp | Frame::Malformed | Frame::Short => {}
    }
}

// The text of where and when a packet was seen.
fn push_seen(piece: &mut Piece, interface: u8, moment: u32, frame: &Frame)
    requires { length piece.old + 72 ≤ 262144 }
    ensures text { piece.new ≡ piece.old ++ seen_told interface moment (frame_facts frame.now) }
    ensures short { length piece.new ≤ length piece.old + 72 }
{
    push_numbered(piece, b" | interface ", u64::from(interface));
    push_way(piece, *frame);
    push_numbered(piece, b" time ", u64::from(moment));
}

// What follows the address of the source in the text of a packet.
fn push_from(piece: &mut Piece, fields: Fields)
    requires { length piece.old + 30 ≤ 262144 }
    ensures text { piece.new ≡ piece.old ++ from_told fields }
    ensures short { length piece.new ≤ length piece.old + 30 }
{
    match fields {
        Fields::Ports { from, .. } | Fields::Tcp { from, .. } => {
            push_numbered(piece, b" port ", u64::from(from));
        }
        Fields::Absent | Fields::Icmp { .. } => {}
    }
}

// What the text of a packet says of fields that aren't there.
fn push_absence(piece: &mut Piece, family: Family, proto: u8)
    requires { length piece.old + 60 ≤ 262144 }
    ensures text { piece.new ≡ piece.old ++ to_told family proto Absent }
    ensures short { length piece.new ≤ length piece.old + 60 }
{
    if has_fields(family, proto) {
        piece.push(b" later fragment");
    }
}

// What follows the address of the destination in the text of a packet.
fn push_to(piece: &mut Piece, tuple: &Tuple)
    requires { length piece.old + 60 ≤ 262144 }
    ensures text { piece.new ≡ piece.old ++ to_told tuple.now.family tuple.now.proto tuple.now.fields }
    ensures short { length piece.new ≤ length piece.old + 60 }
{
    match tuple.fields {
        Fields::Absent => push_absence(piece, tuple.family, tuple.proto),
        Fields::Ports { to, .. } => push_numbered(piece, b" port ", u64::from(to)),
        Fields::Tcp { to, flags, .. } => {
            push_numbered(piece, b" port ", u64::from(to));
            push_line_flags(piece, flags);
        }
        Fields::Icmp { kind, code } => {
            push_numbered(piece, b" type ", u64::from(kind));
            push_numbered(piece, b" code ", u64::from(code));
        }
    }
}

// A word and the address of the source or the destination in the text of a packet.
fn push_end(piece: &mut Piece, word: &[u8], family: Family, address: u128)
    requires fits { address < address_limit family }
    requires room { length piece.old + length word.now + 106 ≤ 262144 }
    ensures text { piece.new ≡ piece.old ++ (word.now ++ address_text family address) }
    ensures short { length piece.new ≤ length piece.old + length word.now + 106 }
{
    piece.push(word);
    push_address(piece, family, address);
}

fn push_tuple(piece: &mut Piece, tuple: &Tuple)
    requires { length piece.old + 341 ≤ 262144 }
    ensures text { piece.new ≡ piece.old ++ tuple_told (tuple_facts tuple.now) }
    ensures short { length piece.new ≤ length piece.old + 341 }
{
    push_line_protocol(piece, tuple.family, tuple.proto);
    push_end(piece, b" ", tuple.family, tuple.source);
    push_from(piece, tuple.fields);
    push_end(piece, b" to ", tuple.family, tuple.dest);
    push_to(piece, tuple);
}

// The text of what a packet carries, where that is seen.
fn push_carried(piece: &mut Piece, frame: &Frame)
    requires { length piece.old + 341 ≤ 262144 }
    ensures text { piece.new ≡ piece.old ++ carried_told (frame_facts frame.now) }
    ensures short { length piece.new ≤ length piece.old + 341 }
{
    match frame {
        Frame::Ip(_, tuple) => push_tuple(piece, tuple),
        Frame::NotIp | Frame::Malformed | Frame::Short => {}
    }
}

/// The text of a packet that was seen at this interface and second, and of what its frame is there: ` | `, the interface, the
/// direction and the second, and what the packet carries; direction and content where the frame shows them.
pub fn push_packet(piece: &mut Piece, interface: u8, moment: u32, frame: &Frame)
    requires { length piece.old + 413 ≤ 262144 }
    ensures text { piece.new ≡ piece.old ++ packet_told interface moment (frame_facts frame.now) }
    ensures short { length piece.new ≤ length piece.old + 413 }
{
    push_seen(piece, interface, moment, frame);
    push_carried(piece, frame);
}
