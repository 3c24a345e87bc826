//! The report on a shard's packets of one capture, which are told in lines, and saved, while they come.
ghost use Rattle.std.specs.Prelude.{◌≡◌, ◌+◌, ◌-◌, ◌<◌, ◌≤◌, ◌^◌, [], IfOk, IfSome, MatchResult, length};
ghost use Rattle.racl_io.specs.Inputs.{most_bytes};
ghost use Rattle.racl_io.specs.Transfers.{GaveAtMost};
ghost use Rattle.capture_stream.specs.Lives.{AreCounted, HaveFailed, with_read};
ghost use Rattle.capture_stream.specs.Savings.{manner_of, outputs};
ghost use Rattle.capture_shards.specs.inner.OwnTests.{own_among};
ghost use Rattle.filter_run.specs.OwnReports.{HasToldAllOwn, IsOwnFault};
ghost use Rattle.filter_run.specs.Starts.{most_at, start_facts};

use crate::capture_report::OpenCapture;
use crate::one_capture::OneCapture;
use crate::one_filter::OneFilter;
use crate::running::run;
use crate::saved_records::SavedRecords;
use crate::sharded::Sharded;
use crate::told_lines::ToldLines;
use capture_shards::Shard;
use capture_stream::{Judge, Saver};
use racl_io::{Fault, ReadBuffer, Sink, Source, Teller, Totals, is_truncated};
use std::alloc::Global;

/// A capture whose header was read, and the shard whose packets are judged, told and saved; all are, where there is none.
#[derive(Drop)]
pub struct Share<J> {
    pub capture: OpenCapture<J>,
    pub shard: Option<Shard>,
    /// Whether the latest second of all packets is noted, of the shard's and of others.
    pub noted: bool,
}

/// What came of a capture whose packets, or a shard's, were told.
#[derive(Drop)]
pub struct ReportedShare<J> {
    /// Who judged them.
    pub judges: J,
    /// The totals over these.
    pub totals: Totals,
    /// How many packets the capture has.
    pub seen: usize,
    /// The latest second of any of them, where it was to be noted.
    pub latest: u32,
}

/// Judges the packets of a shard of a capture from its start on, or all. After each read what is told of those packets whose records
/// were read whole is written, with their numbers among all, and their records are saved; what stands behind all of them is for the
/// caller to tell. A fault leaves what was written and saved. No verdict is kept, and of the bytes only those that belong to no whole
/// record. Each packet is looked at once for its shard. TooLarge: an input has more than MOST_BYTES, or a capture that is no part of
/// one 2^62 bytes behind its header.
pub fn report_share<J: Judge + Drop, L: Teller, K: Saver, R: Source, W: Sink>(
    alloc: Global,
    reader: &mut R,
    writer: &mut W,
    teller: &mut L,
    saver: &mut K,
    share: Share<J>,
) -> Result<ReportedShare<J>, Fault>
    requires begun { J.became share.capture.judges [] [] share.capture.judges }
    requires counts { AreCounted J.judged }
    requires saves { K.saved saver.old share.capture.start.order [] [] saver.old }
    requires front { length share.capture.start.front.items ≤ most_at share.capture.start.input }
    requires input { IfSome share.capture.start.input (λ before. before ≤ most_bytes) }
    requires reader { R.failures reader.old < 2 ^ 64 - 1 }
    requires writer { W.failures writer.old < 2 ^ 64 - 1 }
    ensures told { let manner = manner_of (L.wording teller.old) K.saved in let own = own_among share.shard in let start = start_facts share.capture.start in
        let old = outputs (W.bytes writer.old) saver.old in let new = outputs (W.bytes writer.new) saver.new in
        MatchResult result (HasToldAllOwn J.became J.judged manner share.capture.judges share.noted own start (R.bytes reader.old) (R.bytes reader.new) old new)
        (IsOwnFault J.judged manner share.capture.judges own start (R.bytes reader.old) (R.bytes reader.new) old new) }
    ensures far { GaveAtMost (R.bytes reader.old) (R.bytes reader.new) (most_at share.capture.start.input + 1 - length share.capture.start.front.items) }
    ensures read { MatchResult result (λ _. R.failures reader.new ≡ R.failures reader.old) (λ fault. R.failures reader.new ≡ with_read (R.failures reader.old) fault) }
    ensures write { MatchResult result (λ _. (W.failures writer.new ≡ W.failures writer.old) × (K.failures saver.new ≡ K.failures saver.old))
        (λ fault. HaveFailed (W.failures writer.old) (W.failures writer.new) (K.failures saver.old) (K.failures saver.new) fault) }
    ensures same { IfOk result (λ _. L.wording teller.new ≡ L.wording teller.old) }
{
    let Share {
        capture,
        shard,
        noted,
    } = share;
    let OpenCapture {
        judges,
        start,
        many,
    } = capture;
    let order = start.order;
    let mut source = Sharded {
        inner: OneCapture::new(alloc, reader, start, many),
        shard,
        alloc,
        noted,
        latest: 0,
        seen: 0,
        spare: ReadBuffer::new(Vec::new(alloc)),
    };
    let mut judge = OneFilter { inner: judges };
    let mut observers = (
        ToldLines::new(alloc, teller, writer),
        SavedRecords { saver, order },
    );
    let ran = run(alloc, &mut source, &mut judge, &mut observers);
    let seen = source.seen;
    let latest = source.latest;
    let _reader = source.into_inner().into_reader();
    match ran {
        Ok(captures) => {
            let totals = observers.0.totals(is_truncated(&captures));
            let OneFilter { inner } = judge;
            Ok(ReportedShare {
                judges: inner,
                totals,
                seen,
                latest,
            })
        }
        Err(found) => Err(found.fault),
    }
}
