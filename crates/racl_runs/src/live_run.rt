//! One run over a capture that is told while it comes.
ghost use Rattle.std.specs.Prelude.{[], ◌≡◌, ◌+◌, ◌-◌, ◌<◌, ◌≤◌, ◌^◌, ◌++◌, if◌then◌else◌, IfOk, IfSome, List, MatchResult, None, Some, length, nat_lt, true, ℕ};
ghost use Rattle.packet_view.specs.Captures.{PacketFacts};
ghost use Rattle.acl_policy.specs.Policies.{IsPolicyText, policy_facts};
ghost use Rattle.session_state.specs.declared.verdict.Verdict.{Verdict};
ghost use Rattle.racl_io.specs.Inputs.{most_bytes};
ghost use Rattle.racl_io.specs.Tellings.{HasToldText, end_in};
ghost use Rattle.racl_io.specs.Transfers.{GaveAtMost};
ghost use Rattle.filter_run.specs.Starts.{most_at, start_facts};
ghost use Rattle.capture_stream.specs.Lives.{HaveFailed, with_read};
ghost use Rattle.capture_stream.specs.Savings.{Outputs, manner_of, outputs};
ghost use Rattle.capture_shards.specs.inner.OwnTests.{own_among};
ghost use Rattle.racl_report.specs.declared.saved_packets.Saves.{Saves};
ghost use Rattle.racl_runs.specs.Crews.{AreFirstOf};
ghost use Rattle.racl_runs.specs.LiveRuns.{HasRunLive, IsLiveRunFault, IsToldBehind};
ghost use Rattle.racl_runs.specs.LiveSaves.{failures_in};
ghost use Rattle.racl_runs.specs.ShardRuns.{HasFailedOnce};
ghost use Rattle.racl_runs.specs.inner.LiveEnds.{AreBegun, MayTellBehind};
ghost use Rattle.racl_runs.specs.Runs;
ghost use Rattle.racl_runs.specs.Runs.{ages_in};
ghost use Rattle.racl_runs.specs.inner.OwnRuns.{TellsOwn, note_for};

use crate::asked_lines::AskedLines;
use crate::capture_header_reading::keep_header;
use crate::counted_judging::Counted;
use crate::live_saves::LiveSaves;
use crate::pace::Stopwatch;
use crate::run_plan::EXPECTED;
use crate::sized_tables_and_workers::{
    MANY_PACKETS, Manner, SizedCallers, SizedTables, SizedWorkers, create_sized,
};
use crate::stored_sessions::{StoredAsked, keeps_stored, stored_of};
use crate::workers_as_judges::HandingCrew;
use acl_policy::read_policy;
use capture_shards::Shard;
use capture_stream::Saver;
use filter_run::{CaptureStart, OpenCapture, ReportedShare, Share, report_share};
use flow_filter::InterfaceFilters;
use flow_workers::Filter;
use racl_io::{Captured, Fault, Sink, Source, Teller, Totals, captured_alone};
use racl_options::Options;
use racl_report::{Behind, behind_totals, view_behind, write_behind};
use racl_views::{HitCounts, ShardOf, shard_text};
use std::alloc::{AllocError, Global};
use std::sync::Wait;
use std::thread::Threads;
use std::time::Clock;

/// What a live run is asked for: its options, and its policy's text.
#[derive(Clone, Copy)]
pub struct LiveAsked<'t> {
    pub options: &'t Options,
    pub text: &'t [u8],
}

/// What packets are judged by while they come, and told: options, a policy's text, and its rules, which are ready.
#[derive(Clone, Copy)]
pub struct LiveWay<'t, 'f> {
    pub options: &'t Options,
    pub text: &'t [u8],
    pub filter: &'t InterfaceFilters<'f>,
}

/// What a run on one capture goes by: its way, where its records begin, where it gets memory, and the shard whose packets it judges
/// and tells; all where there is none.
#[derive(Drop)]
pub struct LiveHead<'t, 'f> {
    pub alloc: Global,
    pub way: LiveWay<'t, 'f>,
    pub start: CaptureStart,
    pub shard: Option<Shard>,
}

/// Workers over these tables, of whom as many as are asked for judge by this way, and who judged no packet. An error says that
/// memory was refused.
pub fn workers_over<'t, 'f, T: Clock + Threads + Wait + Sync>(
    rt: &'t T,
    alloc: Global,
    way: LiveWay<'t, 'f>,
    tables: &'t SizedTables,
    callers: SizedCallers,
) -> Result<Counted<'t, 'f, T>, AllocError>
    requires { AreFirstOf tables.now callers }
    ensures { IfOk result (λ counted. AreBegun way.entry tables.now counted) }
{
    let manner = Manner {
        filter: way.filter,
        workers: way.options.workers,
    };
    let workers = SizedWorkers::new(rt, alloc, manner, tables, callers)?;
    let counts = HitCounts::new(alloc);
    Ok(Counted {
        crew: HandingCrew {
            alloc,
            workers,
            watch: Stopwatch::new(rt),
        },
        policy: way.filter.policy,
        asked: way.options.hits,
        counts,
    })
}

/// What stands behind the totals of a live run whose workers have ended: with these counts, and these tables, which end. This is
/// the latest second of the capture, where sessions are told or counted.
pub fn told_behind_live(
    alloc: Global,
    way: LiveWay<'_, '_>,
    tables: SizedTables,
    counts: &HitCounts,
    callers: SizedCallers,
    latest: u32,
) -> Result<Behind, AllocError>
    requires { (packets : List PacketFacts) × (said : List Verdict) × MayTellBehind way tables packets said counts.now callers }
    ensures { IfOk result (λ behind. (packets : List PacketFacts) (said : List Verdict) (second : ℕ) → MayTellBehind way.entry tables packets said counts.now callers
        → (Runs.keeps_stored way.entry.options.now ≡ true → latest ≡ second)
        → IsToldBehind way.entry.options.now way.entry.text.now (policy_facts way.entry.filter.now.policy.now) packets said second (behind.hits.items ++ behind.sessions.items)) }
{
    let which = StoredAsked {
        asked: keeps_stored(way.options),
        live: ages_early(way.options),
        times: way.options.times,
        latest,
    };
    let stored = stored_of(alloc, which, tables, callers)?;
    behind_totals(alloc, way.options, way.text, latest, counts, &stored)
}

// What stands behind the totals, and before it what is said of the shard, where there is one, of a capture with so many packets,
// the latest of this second.
fn noted_behind(
    alloc: Global,
    options: &Options,
    shard: Option<Shard>,
    packets: u64,
    latest: u32,
    behind: Behind,
) -> Result<Behind, AllocError>
    ensures { IfOk result (λ noted. noted.hits.items ++ noted.sessions.items
        ≡ note_for options.now shard packets latest ++ (behind.hits.items ++ behind.sessions.items)) }
{
    let Some(shard) = shard else {
        return Ok(behind);
    };
    let told = ShardOf {
        number: shard.number,
        count: shard.count,
        packets,
        latest,
    };
    let mut note = shard_text(alloc, view_behind(options.lines), told)?;
    let Behind { hits, sessions } = behind;
    note.extend_from_slice(&hits)?;
    Ok(Behind {
        hits: note,
        sessions,
    })
}

/// Of a run is told what stands behind its packets: of these captures whether they end within a record, the totals, and what stands
/// behind these.
pub fn tell_end_behind<L: Teller, W: Sink>(
    writer: &mut W,
    teller: &mut L,
    captures: &[Captured],
    totals: &Totals,
    behind: &Behind,
) -> Result<(), Fault>
    requires { W.failures writer.old < 2 ^ 64 - 1 }
    ensures { HasToldText W.bytes W.failures writer.old writer.new (end_in (L.wording teller.old) captures.now totals.now ++ (behind.now.hits.items ++ behind.now.sessions.items)) result }
{
    match teller.tell_end(writer, captures, totals) {
        Ok(()) => write_behind(writer, behind),
        Err(fault) => Err(fault),
    }
}

/// Whether sessions that have ended are removed while packets come: in a live run, as it may never end, and where that is
/// asked for.
pub fn ages_early(options: &Options) -> bool
    ensures { result ≡ ages_in options.now }
{
    options.live || options.ages
}

/// From how many packets of a read on threads pay for so many workers: never for one.
pub fn many_for(workers: usize) -> Option<usize>
    ensures { result ≡ if nat_lt 1 workers then Some 49152 else None }
{
    if workers > 1 {
        Some(MANY_PACKETS)
    } else {
        None
    }
}

// Whether the latest second of the capture is noted: for what is said of a shard, and for sessions that are told or counted.
fn notes_latest(options: &Options, shard: Option<Shard>) -> bool
    ensures shard { IfSome shard (λ _. result ≡ true) }
    ensures stored { Runs.keeps_stored options.now ≡ true → result ≡ true }
{
    shard.is_some() || keeps_stored(options)
}

/// Workers judge the packets of the capture from where its records begin, or the shard's where there is one, and they are told and
/// saved while they come. The tables cut blocks where sessions that have ended are removed.
pub fn tell_capture<
    L: Teller + Drop,
    K: Saver,
    R: Source,
    W: Sink,
    T: Clock + Threads + Wait + Sync,
>(
    rt: &T,
    head: LiveHead<'_, '_>,
    reader: &mut R,
    writer: &mut W,
    lines: L,
    saver: &mut K,
) -> Result<Totals, Fault>
    requires says { IsPolicyText head.way.text.now (policy_facts head.way.filter.now.policy.now) }
    requires sound { (head.way.filter.now.times ≡ head.way.options.now.times) × (R.failures reader.old < 2 ^ 64 - 1) × (W.failures writer.old < 2 ^ 64 - 1) }
    requires front { length head.start.front.items ≤ most_at head.start.input }
    requires input { IfSome head.start.input (λ before. before ≤ most_bytes) }
    requires saves { K.saved saver.old head.start.order [] [] saver.old }
    ensures told { let way = head.entry.way in TellsOwn T way.options.now way.text.now (note_for way.options.now head.entry.shard) (manner_of (L.wording lines) K.saved) (policy_facts way.filter.now.policy.now) (own_among head.entry.shard)
        (start_facts head.entry.start) (R.bytes reader.old) (R.bytes reader.new) (outputs (W.bytes writer.old) saver.old) (outputs (W.bytes writer.new) saver.new) result }
    ensures far { GaveAtMost (R.bytes reader.old) (R.bytes reader.new) (most_at head.entry.start.input + 1 - length head.entry.start.front.items) }
    ensures read { MatchResult result (λ _. R.failures reader.new ≡ R.failures reader.old) (λ fault. R.failures reader.new ≡ with_read (R.failures reader.old) fault) }
    ensures write { HasFailedOnce result (W.failures writer.old) (W.failures writer.new) (K.failures saver.old) (K.failures saver.new) }
{
    let LiveHead {
        alloc,
        way,
        start,
        shard,
    } = head;
    let ages = ages_early(way.options);
    let Ok((tables, callers)) = create_sized(alloc, way.options.tables, ages) else {
        return Err(Fault::Memory);
    };
    let Ok(judges) = workers_over(rt, alloc, way, &tables, callers) else {
        return Err(Fault::Memory);
    };
    let share = Share {
        capture: OpenCapture {
            judges,
            start,
            many: many_for(way.options.workers),
        },
        shard,
        noted: notes_latest(way.options, shard),
    };
    let mut teller = lines;
    let told = match report_share(alloc, reader, writer, &mut teller, saver, share) {
        Ok(told) => told,
        Err(fault) => return Err(fault),
    };
    let ReportedShare {
        judges,
        totals,
        seen,
        latest,
    } = told;
    let Ok((counts, callers)) = judges.end(alloc) else {
        return Err(Fault::Memory);
    };
    let Ok(behind) = told_behind_live(alloc, way, tables, &counts, callers, latest) else {
        return Err(Fault::Memory);
    };
    let Ok(behind) = noted_behind(alloc, way.options, shard, seen as u64, latest, behind) else {
        return Err(Fault::Memory);
    };
    let captures = [captured_alone(&totals)];
    match tell_end_behind(writer, &mut teller, &captures, &totals, &behind) {
        Ok(()) => Ok(totals),
        Err(fault) => Err(fault),
    }
}

/// Filters a capture by a policy with this text while it comes, and writes the report that the options ask for: after each
/// read what is told of all packets whose records were read whole, and at its end what stands behind them: the totals, and the
/// hits and sessions that are asked for. Where files are given for packets that are dropped or pass, each gets them as a
/// capture, after each read too. As many workers as are asked for judge, who keep no verdict, but count, and remove sessions
/// that have ended, so that a capture may be of any length. A fault leaves what was written and saved; but for Write neither
/// totals nor hits stand behind it.
pub fn run_live<R: Source, W: Sink, S: Sink, T: Clock + Threads + Wait + Sync>(
    rt: &T,
    alloc: Global,
    asked: LiveAsked<'_>,
    reader: &mut R,
    writer: &mut W,
    saves: &mut LiveSaves<S>,
) -> Result<Totals, Fault>
    requires reader { R.failures reader.old < 2 ^ 64 - 1 }
    requires writer { W.failures writer.old < 2 ^ 64 - 1 }
    requires files { IfSome saves.old.files.drops (λ file. S.failures file < 2 ^ 64 - 1) × IfSome saves.old.files.passes (λ file. S.failures file < 2 ^ 64 - 1) }
    ensures told { let old : Outputs (Saves S) = record { report = W.bytes writer.old; saver = saves.old.files } in let new : Outputs (Saves S) = record { report = W.bytes writer.new; saver = saves.new.files } in
        MatchResult result (HasRunLive S.bytes asked.entry.options.now asked.entry.text.now (R.bytes reader.old) old new)
        (IsLiveRunFault T S.bytes asked.entry.options.now asked.entry.text.now (R.bytes reader.old) (R.bytes reader.new) old new) }

    // A device's fault is answered where it failed, and it failed once.
    ensures read { MatchResult result (λ _. R.failures reader.new ≡ R.failures reader.old) (λ fault. R.failures reader.new ≡ with_read (R.failures reader.old) fault) }
    ensures write { MatchResult result (λ _. (W.failures writer.new ≡ W.failures writer.old) × (failures_in S.failures saves.new.files ≡ failures_in S.failures saves.old.files))
        (λ fault. HaveFailed (W.failures writer.old) (W.failures writer.new) (failures_in S.failures saves.old.files) (failures_in S.failures saves.new.files) fault) }
{
    let LiveAsked { options, text } = asked;
    let policy = match read_policy(alloc, text) {
        Ok(policy) => policy,
        Err(cause) => return Err(Fault::from(cause)),
    };
    let mut header = Vec::new(alloc);
    let order = match keep_header(reader, &mut header) {
        Ok(order) => order,
        Err(fault) => return Err(fault),
    };
    let filter = Filter {
        policy,
        times: options.times,
    };
    let Ok(prepared) = filter.prepare(alloc, EXPECTED) else {
        return Err(Fault::Memory);
    };
    let Ok(ready) = filter.ready_with(alloc, &prepared) else {
        return Err(Fault::Memory);
    };
    let way = LiveWay {
        options,
        text,
        filter: &ready,
    };
    let Ok(lines) = AskedLines::new(alloc, way, false) else {
        return Err(Fault::Memory);
    };
    match saves.begin(header.as_slice()) {
        Ok(()) => {}
        Err(fault) => return Err(fault),
    }
    let start = CaptureStart::behind_header(alloc, order);
    let head = LiveHead {
        alloc,
        way,
        start,
        shard: None,
    };
    tell_capture(rt, head, reader, writer, lines, saves)
}
