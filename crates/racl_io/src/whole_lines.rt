//! The lines of packets that all have one, written in pieces.
ghost use Rattle.std.specs.Prelude.{◌≡◌, ◌+◌, ◌-◌, ◌<◌, ◌^◌, OnErr, length};
ghost use Rattle.racl_io.specs.Sinks.{GotFront};
ghost use Rattle.racl_io.specs.inner.Lines.{HasWritten, lines_at};

use crate::device::Sink;
use crate::fault::Fault;
use crate::interface_name::Name;
use crate::number_printing::Counter;
use crate::packet_lines::{LINES, push_lines};
use crate::reading_and_writing::write_all;
use crate::report_piece::Piece;
use session_state::Verdict;

/// Where packets stand in a report.
#[derive(Clone, Copy)]
pub struct ReportPlace {
    /// The interface that their lines name, where they name one.
    pub named: Option<u8>,
    /// How many packets have lines before them.
    pub others: usize,
}

/// Writes the lines that the whole report has for the packets at this place, and answers how many of them pass.
pub fn write_lines_whole<W: Sink>(
    writer: &mut W,
    piece: &mut Piece,
    place: ReportPlace,
    verdicts: &[Verdict],
) -> Result<u64, Fault>
    requires sound { W.failures writer.old < 2 ^ 64 - 1 }
    requires fits { place.others + length verdicts.now < 2 ^ 64 }
    ensures told { HasWritten W.bytes W.failures writer.old writer.new place verdicts.now result }
    ensures front { OnErr result (GotFront (W.bytes writer.old) (W.bytes writer.new) (lines_at place verdicts.now)) }
{
    let mut number = Counter::at(place.others as u64);
    let name = Name::of(place.named);
    let mut passed = 0;
    let mut rest = verdicts;
    while !rest.is_empty() {
        let (first, others) = rest.split_at(rest.len().min(LINES));
        piece.clear();
        passed += push_lines(piece, &mut number, &name, first);
        write_all(writer, piece.as_slice())?;
        rest = others;
    }
    Ok(passed)
}
