//! The totals of a report, and the line of a truncated capture.
ghost use Rattle.std.specs.Prelude.{◌≡◌, ◌++◌, ◌-◌, ◌<◌, ◌^◌, [], None, true};
ghost use Rattle.std.specs.List.{flat_map};
ghost use Rattle.racl_io.specs.Reports;
ghost use Rattle.racl_io.specs.Reports.{totals_line, totals_of, truncation_line};
ghost use Rattle.racl_io.specs.Sinks.{HasPutFront};
ghost use Rattle.racl_io.specs.Tellings.{truncation_of};

use crate::device::Sink;
use crate::fault::Fault;
use crate::interface_name::push_name;
use crate::number_printing::Numeral;
use crate::reading_and_writing::write_all;
use crate::report_piece::Piece;
use session_state::Verdict;

/// A capture of an input, as the report tells it.
#[derive(Clone, Copy)]
pub struct Captured {
    /// The interface that its lines name, where they name one.
    pub named: Option<u8>,
    /// How many whole records it has.
    pub packets: usize,
    /// Whether it ends within a record.
    pub truncated: bool,
}

/// How many packets were judged, and what became of them.
#[derive(Clone, Copy, Debug, PartialEq, Eq)]
pub struct Totals {
    pub packets: u64,
    pub passed: u64,
    pub dropped: u64,
    /// How many of those that were dropped found no pages for their sessions.
    pub without_pages: u64,
    /// Whether a capture ends within a record.
    pub truncated: bool,
}

/// How a report tells the only capture of these totals, whose interface it doesn't name.
pub fn captured_alone(totals: &Totals) -> Captured
    ensures { result ≡ record { named = None; packets = totals.now.packets; truncated = totals.now.truncated } }
{
    Captured {
        named: None,
        packets: totals.packets as usize,
        truncated: totals.truncated,
    }
}

// The report's line that a capture is truncated.
fn push_truncation(piece: &mut Piece, captured: &Captured)
    requires { piece.old ≡ [] }
    ensures { piece.new ≡ truncation_line captured.now.named true captured.now.packets }
{
    push_name(piece, captured.named);
    piece.push(b"truncated after ");
    Numeral::of(captured.packets as u64).push(piece);
    piece.push(b"\n");
}

/// Writes the line on a truncated capture, which stands with the totals in a report, where the capture is truncated.
pub fn write_truncation<W: Sink>(
    writer: &mut W,
    piece: &mut Piece,
    captured: &Captured,
) -> Result<(), Fault>
    requires { W.failures writer.old < 2 ^ 64 - 1 }
    ensures { HasPutFront W.bytes W.failures writer.old writer.new (truncation_line captured.now.named captured.now.truncated captured.now.packets) result }
{
    if !captured.truncated {
        return Ok(());
    }
    piece.clear();
    push_truncation(piece, captured);
    write_all(writer, piece.as_slice())
}

/// How many packets pass.
pub fn passed(verdicts: &[Verdict]) -> u64
    ensures { result ≡ Reports.passed verdicts.now }
{
    let mut count = 0;
    'verdicts: for verdict in verdicts {
        if verdict.passes() {
            count += 1;
        }
    }
    count
}

// The line of the totals, which ends a report.
fn push_totals(piece: &mut Piece, totals: &Totals)
    requires { piece.old ≡ [] }
    ensures { piece.new ≡ totals_line totals.now }
{
    piece.push(b"packets ");
    Numeral::of(totals.packets).push(piece);
    piece.push(b" pass ");
    Numeral::of(totals.passed).push(piece);
    piece.push(b" drop ");
    Numeral::of(totals.dropped).push(piece);
    piece.push(b"\n");
}

/// Whether one of the captures is truncated, as the report's totals hold it.
pub fn is_truncated(captures: &[Captured]) -> bool
    ensures { result ≡ Reports.is_truncated captures.now }
{
    captures.iter().any(|captured| captured.truncated)
}

/// How many of a report's verdicts say no-pages, in its totals.
pub fn without_pages(verdicts: &[Verdict]) -> u64
    ensures { result ≡ Reports.without_pages verdicts.now }
{
    verdicts
        .iter()
        .filter(|it| matches!(it, Verdict::NoPages))
        .count() as u64
}

/// The totals of a report, over all its packets, of which so many pass.
pub fn totals_on(passed: u64, verdicts: &[Verdict], captures: &[Captured]) -> Totals
    requires { passed ≡ Reports.passed verdicts.now }
    ensures { result ≡ totals_of verdicts.now captures.now }
{
    let packets = verdicts.len() as u64;
    Totals {
        packets,
        passed,
        dropped: packets - passed,
        without_pages: without_pages(verdicts),
        truncated: is_truncated(captures),
    }
}

// Writes the line of the totals, which ends a report.
fn write_totals<W: Sink>(writer: &mut W, piece: &mut Piece, totals: &Totals) -> Result<(), Fault>
    requires { W.failures writer.old < 2 ^ 64 - 1 }
    ensures { HasPutFront W.bytes W.failures writer.old writer.new (totals_line totals.now) result }
{
    piece.clear();
    push_totals(piece, totals);
    write_all(writer, piece.as_slice())
}

/// Writes the line on each of these captures that is truncated.
pub fn write_truncations<W: Sink>(
    writer: &mut W,
    piece: &mut Piece,
    captures: &[Captured],
) -> Result<(), Fault>
    requires { W.failures writer.old < 2 ^ 64 - 1 }
    ensures { HasPutFront W.bytes W.failures writer.old writer.new (flat_map truncation_of captures.now) result }
{
    'each: for captured in captures {
        match write_truncation(writer, piece, captured) {
            Ok(()) => {}
            Err(fault) => return Err(fault),
        }
    }
    Ok(())
}

/// Writes what stands in a report behind the lines of packets: the line on each of these captures that is truncated, and the
/// totals.
pub fn write_ends<W: Sink>(
    writer: &mut W,
    piece: &mut Piece,
    captures: &[Captured],
    totals: &Totals,
) -> Result<(), Fault>
    requires { W.failures writer.old < 2 ^ 64 - 1 }
    ensures { HasPutFront W.bytes W.failures writer.old writer.new (flat_map truncation_of captures.now ++ totals_line totals.now) result }
{
    match write_truncations(writer, piece, captures) {
        Ok(()) => write_totals(writer, piece, totals),
        Err(fault) => Err(fault),
    }
}
