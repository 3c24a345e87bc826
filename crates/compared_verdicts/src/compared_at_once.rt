//! The verdicts on all packets, and all that is told of what isn't as expected.
ghost use Rattle.std.specs.Prelude.{◌≡◌, ◌≢◌, ◌⊎◌, ◌↔◌, ◌||◌, ◌+◌, ◌-◌, ◌<◌, ◌^◌, Err, IfErr, IfOk, OnOk, length, not};
ghost use Rattle.std.specs.Io.KnownBytes.{Appends};
ghost use Rattle.racl_io.specs.Sinks.{HasPutFront};
ghost use Rattle.racl_io.specs.declared.fault.Fault.{Fault};
ghost use Rattle.compared_verdicts.specs.Meeting.{are_met, told_of, totals_alone};

use crate::expectation::Expectation;
use crate::met_line::write_met;
use crate::unmet::{any_open, any_unmet};
use crate::unmet_lines::{count_passing, write_unmet_end, write_unmet_from};
use racl_io::{Captured, Fault, Piece, Sink, Totals, captured_alone, totals_on};
use session_state::Verdict;
use std::alloc::Global;

/// Whether all is as expected: neither a verdict isn't, nor is a packet missing or a total another.
pub fn is_met(unmet: bool, missing: bool) -> bool
    ensures { result ≡ not (unmet || missing) }
{
    !(unmet || missing)
}

// Writes all that is told of verdicts, where all is as expected or isn't.
fn write_told<W: Sink>(
    writer: &mut W,
    piece: &mut Piece,
    expectations: &[Expectation],
    verdicts: &[Verdict],
    totals: &Totals,
    met: bool,
) -> Result<(), Fault>
    requires sound { W.failures writer.old < 2 ^ 64 - 1 }
    requires fits { length verdicts.now + 1 < 2 ^ 64 }
    requires is { met ≡ are_met expectations.now verdicts.now totals.now }
    ensures { HasPutFront W.bytes W.failures writer.old writer.new (told_of expectations.now verdicts.now totals.now) result }
{
    match write_unmet_from(writer, piece, expectations, 1, verdicts) {
        Ok(()) => {}
        Err(fault) => return Err(fault),
    }
    let captures = [captured_alone(totals)];
    match write_unmet_end(writer, piece, expectations, &captures, totals) {
        Ok(()) => {}
        Err(fault) => return Err(fault),
    }
    write_met(writer, piece, met, expectations.len())
}

/// Writes all that is told of the verdicts on packets that are of no capture: whether all is as expected. A fault is Memory,
/// and then nothing was written, or Write.
pub fn write_compared<W: Sink>(
    alloc: Global,
    writer: &mut W,
    expectations: &[Expectation],
    verdicts: &[Verdict],
) -> Result<bool, Fault>
    requires sound { W.failures writer.old < 2 ^ 64 - 1 }
    requires fits { length verdicts.now + 1 < 2 ^ 64 }
    ensures met { IfOk result (λ met. met ≡ are_met expectations.now verdicts.now (totals_alone verdicts.now)) }
    ensures told { OnOk result (Appends (W.bytes writer.old) (W.bytes writer.new) (told_of expectations.now verdicts.now (totals_alone verdicts.now))) }
    ensures fault { IfErr result (λ fault. (fault ≡ Fault.Memory) ⊎ (fault ≡ Fault.Write)) }
    ensures write { (result ≡ Err Fault.Write) ↔ (W.failures writer.new ≡ W.failures writer.old + 1) }
    ensures unwritten { IfErr result (λ fault. fault ≢ Fault.Write → writer.new ≡ writer.old) }
{
    let Ok(mut piece) = Piece::new(alloc) else {
        return Err(Fault::Memory);
    };
    let captures = [Captured {
        named: None,
        packets: verdicts.len(),
        truncated: false,
    }];
    let totals = totals_on(count_passing(verdicts), verdicts, &captures);
    let met = is_met(
        any_unmet(expectations, 0, verdicts),
        any_open(expectations, &totals),
    );
    match write_told(writer, &mut piece, expectations, verdicts, &totals, met) {
        Ok(()) => Ok(met),
        Err(fault) => Err(fault),
    }
}
