//! The report on one capture, whose packets are told in lines, and saved, while they come.
ghost use Rattle.std.specs.Prelude.{◌≡◌, ◌+◌, ◌-◌, ◌<◌, ◌≤◌, ◌^◌, [], IfOk, IfSome, MatchResult, length};
ghost use Rattle.racl_io.specs.Inputs.{most_bytes};
ghost use Rattle.racl_io.specs.Transfers.{GaveAtMost};
ghost use Rattle.capture_stream.specs.Lives.{AreCounted, HaveFailed, with_read};
ghost use Rattle.capture_stream.specs.Savings.{manner_of, outputs};
ghost use Rattle.filter_run.specs.CaptureReports.{HasToldAll, IsLiveFault};
ghost use Rattle.filter_run.specs.Starts.{most_at, start_facts};

use crate::capture_start::CaptureStart;
use crate::one_capture::OneCapture;
use crate::one_filter::OneFilter;
use crate::running::run;
use crate::saved_records::SavedRecords;
use crate::told_lines::ToldLines;
use capture_stream::{Judge, Saver};
use racl_io::{Fault, Sink, Source, Teller, Totals, is_truncated};
use std::alloc::Global;

/// A capture whose header was read, and who judges its packets.
#[derive(Drop)]
pub struct OpenCapture<J> {
    pub judges: J,
    /// Where its records begin.
    pub start: CaptureStart,
    /// From how many packets of a read on threads pay, where there are several: reads then grow.
    pub many: Option<usize>,
}

/// What came of a capture whose packets were told.
#[derive(Drop)]
pub struct ReportedCapture<J> {
    /// Who judged all packets.
    pub judges: J,
    /// The totals over these.
    pub totals: Totals,
}

/// Judges all packets of a capture from its start on. After each read what is told of all packets whose records were read whole is
/// written, and the records are saved; what stands behind all of them is for the caller to tell. A fault leaves what was written and
/// saved. No verdict is kept, and of the bytes only those that belong to no whole record. TooLarge: an input has more than MOST_BYTES,
/// or a capture that is no part of one 2^62 bytes behind its header.
pub fn report_capture<J: Judge + Drop, L: Teller, K: Saver, R: Source, W: Sink>(
    alloc: Global,
    reader: &mut R,
    writer: &mut W,
    teller: &mut L,
    saver: &mut K,
    capture: OpenCapture<J>,
) -> Result<ReportedCapture<J>, Fault>
    requires begun { J.became capture.judges [] [] capture.judges }
    requires counts { AreCounted J.judged }
    requires saves { K.saved saver.old capture.start.order [] [] saver.old }
    requires front { length capture.start.front.items ≤ most_at capture.start.input }
    requires input { IfSome capture.start.input (λ before. before ≤ most_bytes) }
    requires reader { R.failures reader.old < 2 ^ 64 - 1 }
    requires writer { W.failures writer.old < 2 ^ 64 - 1 }
    ensures told { let manner = manner_of (L.wording teller.old) K.saved in let start = start_facts capture.start in let old = outputs (W.bytes writer.old) saver.old in let new = outputs (W.bytes writer.new) saver.new in
        MatchResult result (HasToldAll J.became J.judged manner capture.judges start (R.bytes reader.old) (R.bytes reader.new) old new)
        (IsLiveFault J.judged manner capture.judges start (R.bytes reader.old) (R.bytes reader.new) old new) }
    ensures far { GaveAtMost (R.bytes reader.old) (R.bytes reader.new) (most_at capture.start.input + 1 - length capture.start.front.items) }
    ensures read { MatchResult result (λ _. R.failures reader.new ≡ R.failures reader.old) (λ fault. R.failures reader.new ≡ with_read (R.failures reader.old) fault) }
    ensures write { MatchResult result (λ _. (W.failures writer.new ≡ W.failures writer.old) × (K.failures saver.new ≡ K.failures saver.old))
        (λ fault. HaveFailed (W.failures writer.old) (W.failures writer.new) (K.failures saver.old) (K.failures saver.new) fault) }
    ensures same { IfOk result (λ _. L.wording teller.new ≡ L.wording teller.old) }
{
    let OpenCapture {
        judges,
        start,
        many,
    } = capture;
    let order = start.order;
    let mut source = OneCapture::new(alloc, reader, start, many);
    let mut judge = OneFilter { inner: judges };
    let mut observers = (
        ToldLines::new(alloc, teller, writer),
        SavedRecords { saver, order },
    );
    let ran = run(alloc, &mut source, &mut judge, &mut observers);
    let _reader = source.into_reader();
    match ran {
        Ok(captures) => {
            let totals = observers.0.totals(is_truncated(&captures));
            let OneFilter { inner } = judge;
            Ok(ReportedCapture {
                judges: inner,
                totals,
            })
        }
        Err(found) => Err(found.fault),
    }
}
