//! How the lines of a capture name the interface where it was taken.
ghost use Rattle.std.specs.Prelude.{◌≡◌, ◌↔◌, ℕ, ◌+◌, ◌≤◌, ◌++◌, true, Option, None, codes, decimal, length, take};
ghost use Rattle.racl_io.specs.Reports.{name_of};
ghost use Rattle.racl_io.specs.inner.Names.{name_behind};

use crate::number_printing::Numeral;
use crate::report_piece::Piece;
use std::marker::Model;

/// All bytes of a name's room are copied at once: a copy of a fixed length costs no call.
const ROOM: usize = 8;

/// The name of an interface as it stands behind a line's number, or that lines name none.
#[derive(Drop)]
pub struct Name {
    named: Option<u8>,
    text: [u8; ROOM],
    /// How many bytes of the text count.
    len: usize,
}

impl Model for Name {
    ghost Value = { Option ℕ };

    ghost view = { λ n. n.named };

    ghost invariant = { λ n. (n.len ≤ 7) × (take n.len n.text ≡ name_behind n.named) };
}

// The text that names the interface with this number in a capture's lines, and how many bytes of it count.
fn text_of(number: u8) -> ([u8; ROOM], usize)
    ensures text { take result.1 result.0 ≡ codes " if " ++ decimal number }
    ensures short { result.1 ≤ 7 }
{
    let last = b'0' + number % 10;
    if number < 10 {
        return ([b' ', b'i', b'f', b' ', last, 0, 0, 0], 5);
    }
    let tens = number / 10;
    let middle = b'0' + tens % 10;
    if tens < 10 {
        return ([b' ', b'i', b'f', b' ', middle, last, 0, 0], 6);
    }
    let first = b'0' + tens / 10;
    ([b' ', b'i', b'f', b' ', first, middle, last, 0], 7)
}

impl Name {
    /// The name of the interface with this number, or that lines name none.
    pub fn of(named: Option<u8>) -> Name
        ensures { result ≡ named }
    {
        let Some(number) = named else {
            return Name {
                named,
                text: [0; ROOM],
                len: 0,
            };
        };
        let (text, len) = text_of(number);
        Name { named, text, len }
    }

    /// Whether lines name no interface.
    pub fn is_absent(&self) -> bool
        ensures { (result ≡ true) ↔ (self.now ≡ None) }
    {
        self.named.is_none()
    }

    /// Pushes the interface's name as it stands behind a line's number.
    #[inline(always)]
    pub fn push(&self, piece: &mut Piece)
        requires { length piece.old + 8 ≤ 262144 }
        ensures text { piece.new ≡ piece.old ++ name_behind self.now }
        ensures short { length piece.new ≤ length piece.old + 7 }
    {
        piece.push_first(&self.text, self.len);
    }
}

/// What names the interface in the line of a packet, or of a truncated capture, where lines name it.
pub fn push_name(piece: &mut Piece, named: Option<u8>)
    requires { length piece.old + 28 ≤ 262144 }
    ensures text { piece.new ≡ piece.old ++ name_of named }
    ensures short { length piece.new ≤ length piece.old + 28 }
{
    let Some(number) = named else {
        return;
    };
    piece.push(b"if ");
    Numeral::of(number as u64).push(piece);
    piece.push(b" ");
}
