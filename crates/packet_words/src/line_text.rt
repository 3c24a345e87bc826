//! What several lines have in pieces of their text.
ghost use Rattle.std.specs.Prelude.{◌≡◌, ◌==◌, ◌||◌, ◌+◌, ◌≤◌, ◌++◌, codes, length};
ghost use Rattle.packet_view.specs.Addresses.{icmp_of};
ghost use Rattle.packet_words.specs.PacketWords.{flags_text, numbered, protocol_text};

use crate::address_text::hex_digit;
use acl_policy::icmp_number;
use packet_view::Family;
use racl_io::{Numeral, Piece};

/// Text of a line: a word and a number, as lines of several kinds have them.
pub fn push_numbered(piece: &mut Piece, word: &[u8], number: u64)
    requires { length piece.old + length word.now + 24 ≤ 262144 }
    ensures text { piece.new ≡ piece.old ++ numbered word.now number }
    ensures short { length piece.new ≤ length piece.old + length word.now + 24 }
{
    piece.push(word);
    Numeral::of(number).push(piece);
}

/// Whether packets of this protocol have ports, or a type, unless they are fragments other than the first.
pub fn has_fields(family: Family, proto: u8) -> bool
    ensures { result ≡ ((proto == 6) || ((proto == 17) || (proto == icmp_of family))) }
{
    proto == 6 || proto == 17 || proto == icmp_number(family)
}

// The protocol in the text of a packet or a session: by its name, or by its number where it has none.
fn push_line_protocol_word(piece: &mut Piece, family: Family, proto: u8)
    requires { length piece.old + 33 ≤ 262144 }
    ensures text { piece.new ≡ piece.old ++ protocol_text family proto }
    ensures short { length piece.new ≤ length piece.old + 33 }
{
    if proto == 6 {
        piece.push(b"tcp");
    } else if proto == 17 {
        piece.push(b"udp");
    } else if proto == icmp_number(family) {
        piece.push(b"icmp");
    } else {
        push_numbered(piece, b"protocol ", u64::from(proto));
    }
}

/// The protocol in the text of a packet or a session, as policies write it, behind a blank.
pub fn push_line_protocol(piece: &mut Piece, family: Family, proto: u8)
    requires { length piece.old + 34 ≤ 262144 }
    ensures text { piece.new ≡ piece.old ++ (codes " " ++ protocol_text family proto) }
    ensures short { length piece.new ≤ length piece.old + 34 }
{
    piece.push(b" ");
    push_line_protocol_word(piece, family, proto);
}

/// The flags of TCP in the text of a packet or a session.
pub fn push_line_flags(piece: &mut Piece, flags: u8)
    requires { length piece.old + 9 ≤ 262144 }
    ensures text { piece.new ≡ piece.old ++ flags_text flags }
    ensures short { length piece.new ≤ length piece.old + 9 }
{
    let flags = u16::from(flags);
    piece.push(b" flags ");
    piece.push(&[hex_digit(flags / 16), hex_digit(flags % 16)]);
}
