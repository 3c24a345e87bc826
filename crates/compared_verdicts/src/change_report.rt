//! The report on what a change of policy changes, which is written while a capture comes.
ghost use Rattle.std.specs.Prelude.{◌≡◌, ◌-◌, ◌<◌, ◌^◌, [], MatchResult};
ghost use Rattle.racl_io.specs.Tellings.{with_write};
ghost use Rattle.capture_stream.specs.Lives.{AreCounted, with_read};
ghost use Rattle.filter_run.specs.OneCapture.{HasGiven, start_of};
ghost use Rattle.filter_run.specs.Ran.{IsBegun};
ghost use Rattle.filter_run.specs.Starts.{behind_header};
ghost use Rattle.compared_verdicts.specs.Changes.{pair_facts};
ghost use Rattle.compared_verdicts.specs.Comparing.{HasToldAll, IsComparingFault};
ghost use Rattle.compared_verdicts.specs.inner.ChangesTold.{HasToldChanges};
ghost use Rattle.compared_verdicts.specs.inner.ComparedRuns.{HaveSaid};

use crate::change_lines::PolicyPair;
use crate::change_totals::{ChangeTotals, no_changes, write_end_of_report};
use crate::changes_told::ChangeLines;
use capture_stream::Judge;
use filter_run::{Both, CaptureStart, OneCapture, OneFilter, run};
use packet_view::Order;
use racl_io::{Fault, Piece, Sink, Source, is_truncated};
use std::alloc::Global;

// Two judge all that the source gives, what is changed is told, and behind it the totals.
fn tell_all<J: Judge, K: Judge, R: Source, W: Sink>(
    alloc: Global,
    source: &mut OneCapture<'_, R>,
    judges: &mut Both<OneFilter<J>, OneFilter<K>>,
    lines: &mut ChangeLines<'_, '_, W>,
) -> Result<ChangeTotals, Fault>
    requires begun { IsBegun (HasGiven R.bytes R.failures) (HaveSaid J.became J.judged K.became K.judged) (HasToldChanges W.bytes W.failures) source.old judges.old lines.old }
    requires alone { start_of source.old ≡ behind_header source.old.parting.order }
    ensures same_reader { source.new.reader.ghost_name ≡ source.old.reader.ghost_name }
    ensures same_writer { lines.new.writer.ghost_name ≡ lines.old.writer.ghost_name }
    ensures told { let facts = pair_facts lines.old.policies in let before = R.bytes source.old.reader.now in let after = R.bytes source.new.reader.now in
        let one = J.judged judges.old.first.inner in let other = K.judged judges.old.second.inner in
        MatchResult result (HasToldAll facts one other source.old.parting.order before after (W.bytes lines.old.writer.now) (W.bytes lines.new.writer.now)) (IsComparingFault facts one other source.old.parting.order before after (W.bytes lines.old.writer.now) (W.bytes lines.new.writer.now)) }
    ensures read { MatchResult result (λ _. R.failures source.new.reader.now ≡ R.failures source.old.reader.now) (λ fault. R.failures source.new.reader.now ≡ with_read (R.failures source.old.reader.now) fault) }
    ensures write { MatchResult result (λ _. W.failures lines.new.writer.now ≡ W.failures lines.old.writer.now) (λ fault. W.failures lines.new.writer.now ≡ with_write (W.failures lines.old.writer.now) fault) }
{
    let captures = match run(alloc, source, judges, lines) {
        Ok(captures) => captures,
        Err(found) => return Err(found.fault),
    };
    let totals = ChangeTotals {
        truncated: is_truncated(&captures),
        ..lines.totals
    };
    match write_end_of_report(lines.writer, &mut lines.piece, &totals) {
        Ok(()) => Ok(totals),
        Err(fault) => Err(fault),
    }
}

/// Those who judge packets by a policy, and others who do by the one that is to take its place, judge all of a capture behind its
/// header, of which its numbers have this order. After each read the packets that are changed are told of those whose records
/// were read whole, and at the end the totals. A fault leaves what was written. No verdict is kept, and of the bytes only
/// those that belong to no whole record. TooLarge: 2^62 bytes were read.
pub fn report_changes<J: Judge + Drop, K: Judge + Drop, R: Source, W: Sink>(
    alloc: Global,
    reader: &mut R,
    writer: &mut W,
    policies: PolicyPair<'_>,
    judges: (J, K),
    order: Order,
) -> Result<ChangeTotals, Fault>
    requires begun { (J.became judges.0 [] [] judges.0) × (K.became judges.1 [] [] judges.1) }
    requires counts { AreCounted J.judged × AreCounted K.judged }
    requires reader { R.failures reader.old < 2 ^ 64 - 1 }
    requires writer { W.failures writer.old < 2 ^ 64 - 1 }
    ensures told { let facts = pair_facts policies.entry in let before = R.bytes reader.old in let after = R.bytes reader.new in
        MatchResult result (HasToldAll facts (J.judged judges.0) (K.judged judges.1) order before after (W.bytes writer.old) (W.bytes writer.new)) (IsComparingFault facts (J.judged judges.0) (K.judged judges.1) order before after (W.bytes writer.old) (W.bytes writer.new)) }
    ensures read { MatchResult result (λ _. R.failures reader.new ≡ R.failures reader.old) (λ fault. R.failures reader.new ≡ with_read (R.failures reader.old) fault) }
    ensures write { MatchResult result (λ _. W.failures writer.new ≡ W.failures writer.old) (λ fault. W.failures writer.new ≡ with_write (W.failures writer.old) fault) }
{
    let Ok(piece) = Piece::new(alloc) else {
        return Err(Fault::Memory);
    };
    let (before, after) = judges;
    let start = CaptureStart::behind_header(alloc, order);
    let mut source = OneCapture::new(alloc, reader, start, None);
    let mut both = Both {
        first: OneFilter { inner: before },
        second: OneFilter { inner: after },
        alloc,
    };
    let mut lines = ChangeLines {
        alloc,
        policies,
        writer,
        piece,
        totals: no_changes(),
    };
    let told = tell_all(alloc, &mut source, &mut both, &mut lines);
    let _reader = source.into_reader();
    let _writer = lines.into_writer();
    told
}
