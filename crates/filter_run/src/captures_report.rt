//! The report on several captures that come together, whose packets are told in lines as their records become whole.
ghost use Rattle.std.specs.Prelude.{◌≡◌, ◌-◌, ◌<◌, ◌^◌, [], IfErr, IfOk, MatchResult};
ghost use Rattle.racl_io.specs.Tellings.{with_write};
ghost use Rattle.racl_io.specs.declared.fault.Fault.TheVariants.{Read};
ghost use Rattle.capture_stream.specs.Arrivals.{HaveAllEnded};
ghost use Rattle.capture_stream.specs.Lives.{AreCounted, with_read};
ghost use Rattle.filter_run.specs.ComingCaptures.{HasToldCaptures, IsFaultOfComing};
ghost use Rattle.filter_run.specs.inner.Parts.{or_long_at};

use crate::coming_captures::{ComingCaptures, new_lanes};
use crate::one_filter::OneFilter;
use crate::running::run;
use crate::told_lines::ToldLines;
use capture_stream::{Arrivals, FaultAt, Judge};
use racl_io::{Captured, Fault, Sink, Teller, Totals, is_truncated};
use std::alloc::Global;

/// What came of several captures whose packets were told.
#[derive(Drop)]
pub struct ReportedCaptures<J> {
    /// Who judged all packets.
    pub judges: J,
    /// The totals over these.
    pub totals: Totals,
    /// The captures that end within a record, in the order in which they ended.
    pub cuts: Vec<Captured>,
}

// Why a run ended: before it was known that too much came, the record behind the last batch's was too long.
fn or_long(long: Option<FaultAt>, found: FaultAt) -> FaultAt
    ensures { result ≡ or_long_at long found }
{
    match (found.fault, long) {
        (Fault::TooLarge, Some(long)) => long,
        _ => found,
    }
}

/// Judges the packets of several captures as their records become whole, each capture in its own order. After each part what is
/// told of the packets that it made whole is written, numbered over all captures; what stands behind all of them is for the caller to
/// tell. A fault leaves what was written. No verdict is kept, and of the bytes only those that belong to no whole record. TooLarge:
/// 2^62 parts or packets came.
pub fn report_captures<J: Judge + Drop, L: Teller, A: Arrivals, W: Sink>(
    alloc: Global,
    arrivals: &mut A,
    writer: &mut W,
    teller: &mut L,
    judges: J,
) -> Result<ReportedCaptures<J>, FaultAt>
    requires begun { J.became judges [] [] judges }
    requires counts { AreCounted J.judged }
    requires arrivals { A.failures arrivals.old < 2 ^ 64 - 1 }
    requires writer { W.failures writer.old < 2 ^ 64 - 1 }
    ensures told { let wording = L.wording teller.old in
        MatchResult result (HasToldCaptures J.became J.judged wording judges (A.parts arrivals.old) (A.parts arrivals.new) (W.bytes writer.old) (W.bytes writer.new))
        (IsFaultOfComing J.judged wording judges (A.parts arrivals.old) (A.parts arrivals.new) (W.bytes writer.old) (W.bytes writer.new)) }
    ensures left { IfOk result (λ _. HaveAllEnded (A.left arrivals.new)) }
    ensures read { MatchResult result (λ _. A.failures arrivals.new ≡ A.failures arrivals.old) (λ found. A.failures arrivals.new ≡ with_read (A.failures arrivals.old) found.fault) }
    ensures whose { IfErr result (λ found. found.fault ≡ Read → found.interface ≡ A.unread arrivals.new) }
    ensures write { MatchResult result (λ _. W.failures writer.new ≡ W.failures writer.old) (λ found. W.failures writer.new ≡ with_write (W.failures writer.old) found.fault) }
    ensures same { IfOk result (λ _. L.wording teller.new ≡ L.wording teller.old) }
{
    let Ok(lanes) = new_lanes(alloc) else {
        return Err(FaultAt {
            fault: Fault::Memory,
            interface: None,
        });
    };
    let mut source = ComingCaptures::new(alloc, arrivals, lanes);
    let mut judge = OneFilter { inner: judges };
    let mut lines = ToldLines::new(alloc, teller, writer);
    let ran = run(alloc, &mut source, &mut judge, &mut lines);
    let long = source.long;
    let _arrivals = source.into_arrivals();
    match ran {
        Ok(cuts) => {
            let totals = lines.totals(is_truncated(&cuts));
            let OneFilter { inner } = judge;
            Ok(ReportedCaptures {
                judges: inner,
                totals,
                cuts,
            })
        }
        Err(found) => Err(or_long(long, found)),
    }
}
