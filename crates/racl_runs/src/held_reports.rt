//! The report on what an input has behind its front, which is held until all of the input was judged.
ghost use Rattle.std.specs.Prelude.{◌≡◌, ◌≢◌, ◌+◌, ◌-◌, ◌<◌, ◌≤◌, ◌^◌, Err, IfErr, IfOk, length};
ghost use Rattle.racl_io.specs.Inputs.{most_bytes};
ghost use Rattle.racl_io.specs.Transfers.{HasReadWithin};
ghost use Rattle.racl_io.specs.declared.fault.Fault.TheVariants.{Memory};
ghost use Rattle.racl_io.specs.declared.marker_line.Form.TheVariants.{Binary};
ghost use Rattle.racl_runs.specs.Reads.{AnswersInput, AnswersRead, HasHeaded, HasMarked, HoldsReport, IsReportOfInput};
ghost use Rattle.racl_runs.specs.inner.HeldTexts.{without_device};

use crate::asked_lines::AskedLines;
use crate::captures_at_hand::{AtHand, HeldReport, report_at_hand};
use crate::digit_captures::{Decoded, decode_captures, has_number};
use crate::input_front::{Headed, Marked};
use crate::live_run::{LiveHead, LiveWay, tell_capture};
use crate::run_plan::expected_packets;
use capture_stream::Unsaved;
use filter_run::CaptureStart;
use racl_io::{Device, Fault, Source};
use racl_options::Options;
use std::alloc::Global;
use std::sync::Wait;
use std::thread::Threads;
use std::time::Clock;

// The fault of a report that is held: what can't be held wants memory.
fn of_held(fault: Fault) -> Fault
    ensures { result ≡ without_device fault }
{
    match fault {
        Fault::Write => Fault::Memory,
        _ => fault,
    }
}

/// The report on the capture of an input that begins with these bytes, whose other bytes the source has.
pub fn report_headed<R: Source, T: Clock + Threads + Wait + Sync>(
    rt: &T,
    alloc: Global,
    options: &Options,
    reader: &mut R,
    bytes: &[u8],
    headed: Headed,
) -> Result<HeldReport, Fault>
    requires headed { HasHeaded options.now bytes.now headed }
    requires few { length bytes.now ≤ most_bytes }
    requires sound { R.failures reader.old < 2 ^ 64 - 1 }
    ensures ok { IfOk result (λ held. HoldsReport options.now bytes.now (R.bytes reader.old) held.text.items held.totals) }
    ensures fault { IfErr result (λ fault. AnswersRead options.now bytes.now (R.bytes reader.old) (Err fault)) }
    ensures within { HasReadWithin R.bytes R.failures (most_bytes + 1 - length bytes.now) reader.old reader.new result }
{
    let Headed {
        filter,
        text,
        order,
        from,
    } = headed;
    let Ok(front) = Vec::from_slice(alloc, &bytes[from..]) else {
        return Err(Fault::Memory);
    };
    let Ok(prepared) = filter.prepare(alloc, expected_packets(options, bytes.len())) else {
        return Err(Fault::Memory);
    };
    let Ok(ready) = filter.ready_with(alloc, &prepared) else {
        return Err(Fault::Memory);
    };
    let way = LiveWay {
        options,
        text: &bytes[..text],
        filter: &ready,
    };
    let Ok(lines) = AskedLines::new(alloc, way, false) else {
        return Err(Fault::Memory);
    };
    let start = CaptureStart {
        order,
        front,
        input: Some(from),
    };
    let head = LiveHead {
        alloc,
        way,
        start,
        shard: None,
    };
    let mut held = Device::new(Vec::new(alloc));
    match tell_capture(rt, head, reader, &mut held, lines, &mut Unsaved) {
        Ok(totals) => {
            let Device { inner, .. } = held;
            Ok(HeldReport {
                text: inner,
                totals,
            })
        }
        Err(fault) => Err(of_held(fault)),
    }
}

/// The report on captures as digits, of an input that these bytes are.
pub fn report_digits<T: Clock + Threads + Wait + Sync>(
    rt: &T,
    alloc: Global,
    options: &Options,
    bytes: &[u8],
    marked: Marked,
) -> Result<HeldReport, Fault>
    requires marked { HasMarked options.now bytes.now marked }
    requires digits { marked.form ≢ Binary }
    requires few { length bytes.now ≤ most_bytes }
    ensures ok { IfOk result (λ held. IsReportOfInput options.now bytes.now held.text.items held.totals) }
    ensures fault { IfErr result (λ fault. AnswersInput options.now bytes.now (Err fault)) }
{
    let Marked {
        filter,
        text,
        form,
        from,
    } = marked;
    let Decoded { captures, told } = match decode_captures(alloc, form, &bytes[from..]) {
        Ok(decoded) => decoded,
        Err(fault) => return Err(fault),
    };
    let at_hand = AtHand {
        filter: &filter,
        text: &bytes[..text],
        captures: &captures,
        told: &told,
        names: has_number(form),
    };
    match report_at_hand(rt, alloc, options, at_hand) {
        Ok(held) => Ok(held),
        Err(fault) => Err(fault),
    }
}
