//! The words of a line that tells what isn't as expected.
ghost use Rattle.std.specs.Prelude.{◌≡◌, ◌+◌, ◌≤◌, ◌++◌, length};
ghost use Rattle.compared_verdicts.specs.Meeting;
ghost use Rattle.compared_verdicts.specs.Meeting.{line_head, packet_head, total_text, wanted_text};

use crate::expectation::{Total, Wanted};
use packet_words::push_verdict;
use racl_io::{Numeral, Piece};
use session_state::Verdict;

// The words of wanted verdicts.
fn push_wanted(piece: &mut Piece, wanted: Wanted)
    requires { length piece.old + 44 ≤ 262144 }
    ensures text { piece.new ≡ piece.old ++ wanted_text wanted }
    ensures short { length piece.new ≤ length piece.old + 44 }
{
    match wanted {
        Wanted::Pass => piece.push(b"pass"),
        Wanted::Drop => piece.push(b"drop"),
        Wanted::PassByRule => piece.push(b"pass rule"),
        Wanted::DropByRule => piece.push(b"drop rule"),
        Wanted::Exactly(verdict) => push_verdict(piece, verdict),
    }
}

// The beginning of a line: of the line of the file.
fn push_line_number(piece: &mut Piece, line: u64, behind: &[u8])
    requires room { length piece.old + 60 ≤ 262144 }
    requires few { length behind.now ≤ 20 }
    ensures text { piece.new ≡ piece.old ++ line_head line behind.now }
    ensures short { length piece.new ≤ length piece.old + 60 }
{
    piece.push(b"line ");
    Numeral::of(line).push(piece);
    piece.push(behind);
}

// The line up to what the verdict was.
fn push_packet_head(piece: &mut Piece, line: u64, number: u64, wanted: Wanted)
    requires { length piece.old + 200 ≤ 262144 }
    ensures text { piece.new ≡ piece.old ++ packet_head line number wanted }
    ensures short { length piece.new ≤ length piece.old + 200 }
{
    push_line_number(piece, line, b": packet ");
    Numeral::of(number).push(piece);
    piece.push(b": expected ");
    push_wanted(piece, wanted);
    piece.push(b", was ");
}

/// The line on a packet with another verdict than is expected.
pub fn push_unmet(piece: &mut Piece, line: u64, number: u64, wanted: Wanted, verdict: Verdict)
    requires { length piece.old + 300 ≤ 262144 }
    ensures { piece.new ≡ piece.old ++ Meeting.unmet_line line number wanted verdict }
{
    push_packet_head(piece, line, number, wanted);
    push_verdict(piece, verdict);
    piece.push(b"\n");
}

/// The line on a packet that isn't there.
pub fn push_missing(piece: &mut Piece, line: u64, number: u64, wanted: Wanted)
    requires { length piece.old + 300 ≤ 262144 }
    ensures { piece.new ≡ piece.old ++ Meeting.missing_line line number wanted }
{
    push_packet_head(piece, line, number, wanted);
    piece.push(b"not in the capture\n");
}

// What a line says of a total behind what was expected.
fn push_was(piece: &mut Piece, is: u64)
    requires { length piece.old + 40 ≤ 262144 }
    ensures { piece.new ≡ piece.old ++ Meeting.was_text is }
{
    piece.push(b", was ");
    Numeral::of(is).push(piece);
    piece.push(b"\n");
}

// The word of a total.
fn push_total_word(piece: &mut Piece, total: Total)
    requires { length piece.old + 10 ≤ 262144 }
    ensures text { piece.new ≡ piece.old ++ total_text total }
    ensures short { length piece.new ≤ length piece.old + 10 }
{
    match total {
        Total::Packets => piece.push(b"packets"),
        Total::Passed => piece.push(b"pass"),
        Total::Dropped => piece.push(b"drop"),
    }
}

/// The line on a total that is another than is expected.
pub fn push_total(piece: &mut Piece, line: u64, total: Total, count: u64, is: u64)
    requires { length piece.old + 300 ≤ 262144 }
    ensures { piece.new ≡ piece.old ++ Meeting.total_line line total count is }
{
    push_line_number(piece, line, b": ");
    push_total_word(piece, total);
    piece.push(b": expected ");
    Numeral::of(count).push(piece);
    push_was(piece, is);
}

/// The last line, where all of so many expectations are met.
pub fn push_met(piece: &mut Piece, count: u64)
    requires { length piece.old + 60 ≤ 262144 }
    ensures { piece.new ≡ piece.old ++ Meeting.met_line count }
{
    piece.push(b"met ");
    Numeral::of(count).push(piece);
    piece.push(b"\n");
}
