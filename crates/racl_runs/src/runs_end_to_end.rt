//! One run of the filter, from the bytes of an input to the report.
ghost use Rattle.std.specs.Prelude.{[], ◌≡◌, ◌≢◌, ◌+◌, ◌-◌, ◌<◌, ◌^◌, ◌⊎◌, ◌↔◌, Err, IfOk, IfErr, IfSome};
ghost use Rattle.racl_io.specs.declared.fault.Fault.{Fault};
ghost use Rattle.racl_io.specs.Faults.{IsInputFault, IsSystemFault, RefusesRead};
ghost use Rattle.racl_io.specs.Inputs.{most_bytes};
ghost use Rattle.racl_io.specs.Transfers.{GaveAtMost, HasReadWithin};
ghost use Rattle.racl_runs.specs.Reads.{AnswersRead, HoldsReport};
ghost use Rattle.racl_runs.specs.Runs.{AnswersRight, HasRun};

use crate::captures_at_hand::HeldReport;
use crate::held_reports::{report_digits, report_headed};
use crate::input_front::{InputFront, Opened, open_source};
use racl_io::{Fault, Sink, Source, Totals, write_all};
use racl_options::Options;
use std::alloc::Global;
use std::sync::Wait;
use std::thread::Threads;
use std::time::Clock;

// The report on an input that is read from its front to its end, held until all of it was judged.
fn report_source<R: Source, T: Clock + Threads + Wait + Sync>(
    rt: &T,
    alloc: Global,
    options: &Options,
    reader: &mut R,
) -> Result<HeldReport, Fault>
    requires { R.failures reader.old < 2 ^ 64 - 1 }
    ensures ok { IfOk result (λ held. HoldsReport options.now [] (R.bytes reader.old) held.text.items held.totals) }
    ensures fault { IfErr result (λ fault. AnswersRead options.now [] (R.bytes reader.old) (Err fault)) }
    ensures within { HasReadWithin R.bytes R.failures (most_bytes + 1) reader.old reader.new result }
{
    let InputFront { bytes, opened, .. } = match open_source(alloc, options, reader) {
        Ok(front) => front,
        Err(fault) => return Err(fault),
    };
    match opened {
        Opened::Bytes(headed) => report_headed(rt, alloc, options, reader, &bytes, headed),
        Opened::Whole(marked) => report_digits(rt, alloc, options, &bytes, marked),
    }
}

/// Reads an input, filters its captures by its policy, and writes the report.
///
/// Nothing is written before the whole input was judged.
pub fn run<R: Source, W: Sink, T: Clock + Threads + Wait + Sync>(
    rt: &T,
    alloc: Global,
    options: &Options,
    reader: &mut R,
    writer: &mut W,
) -> Result<Totals, Fault>
    requires reader { R.failures reader.old < 2 ^ 64 - 1 }
    requires writer { W.failures writer.old < 2 ^ 64 - 1 }

    // What was written is the report on what was read.
    ensures ok { IfOk result (HasRun options.now (R.bytes reader.old) (W.bytes writer.old) (W.bytes writer.new)) }

    // An input that is right is answered by its report, or memory ran out or a device failed.
    ensures accepts { IfSome (R.bytes reader.old) (λ bytes. AnswersRight options.now bytes (W.bytes writer.old) (W.bytes writer.new) result) }

    // A fault of the input is answered where its cause stands first, and then nothing else of the input.
    ensures fault { IfErr result (λ fault. IsSystemFault fault ⊎ IfSome (R.bytes reader.old) (λ bytes. IsInputFault bytes fault)) }
    ensures refuses { IfSome (R.bytes reader.old) (λ bytes. (fault : Fault) → IsInputFault bytes fault → RefusesRead fault result) }

    // No more is read than an input may have, and one byte.
    ensures far { GaveAtMost (R.bytes reader.old) (R.bytes reader.new) (most_bytes + 1) }

    // A device's fault is answered where it failed, and it failed once.
    ensures read { (result ≡ Err Fault.Read) ↔ (R.failures reader.new ≡ R.failures reader.old + 1) }
    ensures sound { result ≢ Err Fault.Read → R.failures reader.new ≡ R.failures reader.old }
    ensures write { (result ≡ Err Fault.Write) ↔ (W.failures writer.new ≡ W.failures writer.old + 1) }
    ensures steady { result ≢ Err Fault.Write → W.failures writer.new ≡ W.failures writer.old }
    ensures unwritten { IfErr result (λ fault. fault ≢ Fault.Write → writer.new ≡ writer.old) }
{
    let HeldReport { text, totals } = match report_source(rt, alloc, options, reader) {
        Ok(held) => held,
        Err(fault) => return Err(fault),
    };
    match write_all(writer, &text) {
        Ok(()) => Ok(totals),
        Err(fault) => Err(fault),
    }
}
