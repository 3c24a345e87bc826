//! The lines of those packets that are shown, written in pieces.
ghost use Rattle.std.specs.Prelude.{◌≡◌, ◌+◌, ◌-◌, ◌<◌, ◌≤◌, ◌^◌, ◌++◌, [], OnErr, length};
ghost use Rattle.racl_io.specs.Reports;
ghost use Rattle.racl_io.specs.ShownReports.{line_shown, lines_shown};
ghost use Rattle.racl_io.specs.Sinks.{GotFront};
ghost use Rattle.racl_io.specs.inner.Lines.{HasTold};

use crate::device::Sink;
use crate::fault::Fault;
use crate::interface_name::Name;
use crate::number_printing::Counter;
use crate::packet_lines::{LINES, push_named_line};
use crate::reading_and_writing::write_all;
use crate::report_piece::Piece;
use crate::whole_lines::ReportPlace;
use session_state::{Shown, Verdict, has_line};

// The line of the packet that was counted last, where it has one.
fn push_shown_line(piece: &mut Piece, number: &Counter, name: &Name, shown: Shown, verdict: Verdict)
    requires fits { number.now < 2 ^ 64 }
    requires room { length piece.old + 72 ≤ 262144 }
    ensures text { piece.new ≡ piece.old ++ line_shown shown name.now number.now verdict }
    ensures short { length piece.new ≤ length piece.old + 72 }
{
    if has_line(shown, verdict) {
        push_named_line(piece, number, name, verdict);
    }
}

// The lines among the packets after the counted ones, and how many of these packets pass.
fn push_shown(
    piece: &mut Piece,
    number: &mut Counter,
    name: &Name,
    shown: Shown,
    verdicts: &[Verdict],
) -> u64
    requires empty { piece.old ≡ [] }
    requires few { length verdicts.now ≤ 3600 }
    requires fits { number.old + length verdicts.now < 2 ^ 64 }
    ensures text { piece.new ≡ lines_shown shown name.now (number.old + 1) verdicts.now }
    ensures number { number.new ≡ number.old + length verdicts.now }
    ensures passed { result ≡ Reports.passed verdicts.now }
{
    let mut passed = 0;
    'each: for verdict in verdicts {
        number.advance_number();
        push_shown_line(piece, number, name, shown, *verdict);
        if verdict.passes() {
            passed += 1;
        }
    }
    passed
}

/// Writes the lines among the packets at this place, and answers how many of these packets pass.
pub fn write_lines_shown<W: Sink>(
    writer: &mut W,
    piece: &mut Piece,
    shown: Shown,
    place: ReportPlace,
    verdicts: &[Verdict],
) -> Result<u64, Fault>
    requires sound { W.failures writer.old < 2 ^ 64 - 1 }
    requires fits { place.others + length verdicts.now < 2 ^ 64 }
    ensures told { HasTold W.bytes W.failures writer.old writer.new (lines_shown shown place.named (place.others + 1) verdicts.now) (Reports.passed verdicts.now) result }
    ensures front { OnErr result (GotFront (W.bytes writer.old) (W.bytes writer.new) (lines_shown shown place.named (place.others + 1) verdicts.now)) }
{
    let mut number = Counter::at(place.others as u64);
    let name = Name::of(place.named);
    let mut passed = 0;
    let mut rest = verdicts;
    while !rest.is_empty() {
        let (first, others) = rest.split_at(rest.len().min(LINES));
        piece.clear();
        passed += push_shown(piece, &mut number, &name, shown, first);
        write_all(writer, piece.as_slice())?;
        rest = others;
    }
    Ok(passed)
}
