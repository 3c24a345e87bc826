//! Packets of which is told what isn't as expected.
ghost use Rattle.std.specs.Prelude.{◌≡◌, ◌+◌, ◌-◌, ◌<◌, ◌^◌, IfOk, length};
ghost use Rattle.racl_io.specs.Reports;
ghost use Rattle.racl_io.specs.Sinks.{HasPutFront};
ghost use Rattle.racl_io.specs.Tellings.{end_in};
ghost use Rattle.compared_verdicts.specs.Meeting.{told_as, told_at, told_from, told_in, told_open, unmet_wording};

use crate::expectation::{Expectation, Expected};
use crate::unmet::{is_unmet, total_of};
use crate::verdict_words::{push_missing, push_total, push_unmet};
use packet_view::Packets;
use racl_io::{
    Captured, Fault, Piece, Sink, Teller, Totals, write_all, write_truncation, write_truncations,
};
use session_state::Verdict;
use std::alloc::{AllocError, Global};

// Writes the line on a packet, where it isn't as this expects.
fn write_unmet<W: Sink>(
    writer: &mut W,
    piece: &mut Piece,
    e: Expectation,
    number: u64,
    verdict: Verdict,
) -> Result<(), Fault>
    requires { W.failures writer.old < 2 ^ 64 - 1 }
    ensures { HasPutFront W.bytes W.failures writer.old writer.new (told_as e.line e.expected number verdict) result }
{
    match e.expected {
        Expected::Verdicts(_, _, wanted) => {
            if is_unmet(e.expected, number, verdict) {
                piece.clear();
                push_unmet(piece, e.line, number, wanted, verdict);
                return write_all(writer, piece.as_slice());
            }
            Ok(())
        }
        Expected::InAll(_, _) => Ok(()),
    }
}

// Writes the lines on a packet.
fn write_unmet_at<W: Sink>(
    writer: &mut W,
    piece: &mut Piece,
    expectations: &[Expectation],
    number: u64,
    verdict: Verdict,
) -> Result<(), Fault>
    requires { W.failures writer.old < 2 ^ 64 - 1 }
    ensures { HasPutFront W.bytes W.failures writer.old writer.new (told_at expectations.now number verdict) result }
{
    let mut rest = expectations;
    'lines: while let Some((e, others)) = rest.split_first() {
        match write_unmet(writer, piece, *e, number, verdict) {
            Ok(()) => {}
            Err(fault) => return Err(fault),
        }
        rest = others;
    }
    Ok(())
}

/// Writes the lines on packets, of which the first has this number.
pub fn write_unmet_from<W: Sink>(
    writer: &mut W,
    piece: &mut Piece,
    expectations: &[Expectation],
    first: u64,
    verdicts: &[Verdict],
) -> Result<(), Fault>
    requires sound { W.failures writer.old < 2 ^ 64 - 1 }
    requires fits { first + length verdicts.now < 2 ^ 64 }
    ensures { HasPutFront W.bytes W.failures writer.old writer.new (told_from expectations.now first verdicts.now) result }
{
    let mut number = first;
    let mut rest = verdicts;
    'packets: while let Some((verdict, others)) = rest.split_first() {
        match write_unmet_at(writer, piece, expectations, number, *verdict) {
            Ok(()) => {}
            Err(fault) => return Err(fault),
        }
        number += 1;
        rest = others;
    }
    Ok(())
}

// Writes the line on a packet that isn't there, or on a total that is another.
fn write_open<W: Sink>(
    writer: &mut W,
    piece: &mut Piece,
    e: Expectation,
    totals: &Totals,
) -> Result<(), Fault>
    requires { W.failures writer.old < 2 ^ 64 - 1 }
    ensures { HasPutFront W.bytes W.failures writer.old writer.new (told_open e.line e.expected totals.now) result }
{
    match e.expected {
        Expected::Verdicts(_, last, wanted) => {
            if totals.packets < last {
                piece.clear();
                push_missing(piece, e.line, last, wanted);
                return write_all(writer, piece.as_slice());
            }
            Ok(())
        }
        Expected::InAll(total, count) => {
            let is = total_of(total, totals);
            if is == count {
                return Ok(());
            }
            piece.clear();
            push_total(piece, e.line, total, count, is);
            write_all(writer, piece.as_slice())
        }
    }
}

// Writes the lines on packets that aren't there, and on totals that are others.
fn write_open_in<W: Sink>(
    writer: &mut W,
    piece: &mut Piece,
    expectations: &[Expectation],
    totals: &Totals,
) -> Result<(), Fault>
    requires { W.failures writer.old < 2 ^ 64 - 1 }
    ensures { HasPutFront W.bytes W.failures writer.old writer.new (told_in expectations.now totals.now) result }
{
    let mut rest = expectations;
    'lines: while let Some((e, others)) = rest.split_first() {
        match write_open(writer, piece, *e, totals) {
            Ok(()) => {}
            Err(fault) => return Err(fault),
        }
        rest = others;
    }
    Ok(())
}

/// How many of these pass.
pub fn count_passing(verdicts: &[Verdict]) -> u64
    ensures { result ≡ Reports.passed verdicts.now }
{
    verdicts.iter().filter(|verdict| verdict.passes()).count() as u64
}

/// Writes what stands behind the lines on packets of these captures.
pub fn write_unmet_end<W: Sink>(
    writer: &mut W,
    piece: &mut Piece,
    expectations: &[Expectation],
    captures: &[Captured],
    totals: &Totals,
) -> Result<(), Fault>
    requires { W.failures writer.old < 2 ^ 64 - 1 }
    ensures { HasPutFront W.bytes W.failures writer.old writer.new (end_in (unmet_wording expectations.now) captures.now totals.now) result }
{
    match write_truncations(writer, piece, captures) {
        Ok(()) => {}
        Err(fault) => return Err(fault),
    }
    write_open_in(writer, piece, expectations, totals)
}

/// What tells of packets what isn't as these expect.
#[derive(Drop)]
pub struct UnmetLines<'e> {
    pub expectations: &'e [Expectation],
    piece: Piece,
}

impl<'e> UnmetLines<'e> {
    pub fn new(alloc: Global, expectations: &'e [Expectation]) -> Result<UnmetLines<'e>, AllocError>
        ensures { IfOk result (λ lines. lines.expectations.now ≡ expectations.entry.now) }
    {
        let piece = Piece::new(alloc)?;
        Ok(UnmetLines {
            expectations,
            piece,
        })
    }
}

impl<'e> Teller for UnmetLines<'e> {
    ghost use Rattle.compared_verdicts.specs.Meeting.{unmet_wording};

    ghost wording = { λ lines. unmet_wording lines.expectations.now };

    fn tell<W: Sink>(
        &mut self,
        writer: &mut W,
        others: usize,
        _packets: Packets<'_>,
        verdicts: &[Verdict],
    ) -> Result<u64, Fault> {
        let first = others as u64 + 1;
        let expectations = self.expectations;
        match write_unmet_from(writer, &mut self.piece, expectations, first, verdicts) {
            Ok(()) => Ok(count_passing(verdicts)),
            Err(fault) => Err(fault),
        }
    }

    fn tell_cut<W: Sink>(&mut self, writer: &mut W, captured: &Captured) -> Result<(), Fault> {
        write_truncation(writer, &mut self.piece, captured)
    }

    fn tell_end<W: Sink>(
        &mut self,
        writer: &mut W,
        captures: &[Captured],
        totals: &Totals,
    ) -> Result<(), Fault> {
        let expectations = self.expectations;
        write_unmet_end(writer, &mut self.piece, expectations, captures, totals)
    }
}
