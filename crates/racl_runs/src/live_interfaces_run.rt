//! One run over captures of several interfaces, which are told while they come.
ghost use Rattle.std.specs.Prelude.{◌≡◌, ◌-◌, ◌<◌, ◌^◌, IfErr, IfOk, MatchResult, None};
ghost use Rattle.acl_policy.specs.Policies.{IsPolicyText, policy_facts};
ghost use Rattle.racl_io.specs.Tellings.{with_write};
ghost use Rattle.racl_io.specs.declared.fault.Fault.TheVariants.{Read};
ghost use Rattle.capture_stream.specs.Arrivals.{HaveAllEnded};
ghost use Rattle.capture_stream.specs.Lives.{with_read};
ghost use Rattle.racl_runs.specs.LiveInterfaceRuns.{HasRunComing, IsComingRunFault, TellsComing};

use crate::asked_lines::AskedLines;
use crate::dated_judging::Dated;
use crate::live_run::{
    LiveAsked, LiveWay, ages_early, tell_end_behind, told_behind_live, workers_over,
};
use crate::run_plan::EXPECTED;
use crate::sized_tables_and_workers::create_sized;
use crate::stored_sessions::keeps_stored;
use acl_policy::read_policy;
use capture_stream::{Arrivals, FaultAt};
use filter_run::{ReportedCaptures, report_captures};
use flow_workers::Filter;
use racl_io::{Fault, Sink, Teller, Totals};
use std::alloc::Global;
use std::sync::Wait;
use std::thread::Threads;
use std::time::Clock;

// A fault that is of no capture.
fn placeless(fault: Fault) -> FaultAt
    ensures { (result.fault ≡ fault) × (result.interface ≡ None) }
{
    FaultAt {
        fault,
        interface: None,
    }
}

// In a live run on several interfaces workers judge the packets of all captures, and they are told, while they come. The
// tables cut blocks, as sessions that have ended are removed.
fn tell_captures<L: Teller, A: Arrivals, W: Sink, T: Clock + Threads + Wait + Sync>(
    rt: &T,
    alloc: Global,
    way: LiveWay<'_, '_>,
    arrivals: &mut A,
    writer: &mut W,
    teller: &mut L,
) -> Result<Totals, FaultAt>
    requires says { IsPolicyText way.text.now (policy_facts way.filter.now.policy.now) }
    requires sound { (way.filter.now.times ≡ way.options.now.times) × (A.failures arrivals.old < 2 ^ 64 - 1) × (W.failures writer.old < 2 ^ 64 - 1) }
    ensures told { TellsComing T way.entry.options.now way.entry.text.now (L.wording teller.old) (policy_facts way.entry.filter.now.policy.now)
        (A.parts arrivals.old) (A.parts arrivals.new) (W.bytes writer.old) (W.bytes writer.new) result }
    ensures left { IfOk result (λ _. HaveAllEnded (A.left arrivals.new)) }
    ensures whose { IfErr result (λ found. found.fault ≡ Read → found.interface ≡ A.unread arrivals.new) }
    ensures read { MatchResult result (λ _. A.failures arrivals.new ≡ A.failures arrivals.old) (λ found. A.failures arrivals.new ≡ with_read (A.failures arrivals.old) found.fault) }
    ensures write { MatchResult result (λ _. W.failures writer.new ≡ W.failures writer.old) (λ found. W.failures writer.new ≡ with_write (W.failures writer.old) found.fault) }
{
    let ages = ages_early(way.options);
    let Ok((tables, callers)) = create_sized(alloc, way.options.tables, ages) else {
        return Err(placeless(Fault::Memory));
    };
    let Ok(inner) = workers_over(rt, alloc, way, &tables, callers) else {
        return Err(placeless(Fault::Memory));
    };
    let judges = Dated {
        inner,
        noted: keeps_stored(way.options),
        latest: 0,
    };
    let told = match report_captures(alloc, arrivals, writer, teller, judges) {
        Ok(told) => told,
        Err(found) => return Err(found),
    };
    let ReportedCaptures {
        judges,
        totals,
        cuts,
    } = told;
    let Dated { inner, latest, .. } = judges;
    let Ok((counts, callers)) = inner.end(alloc) else {
        return Err(placeless(Fault::Memory));
    };
    let Ok(behind) = told_behind_live(alloc, way, tables, &counts, callers, latest) else {
        return Err(placeless(Fault::Memory));
    };
    match tell_end_behind(writer, teller, &cuts, &totals, &behind) {
        Ok(()) => Ok(totals),
        Err(fault) => Err(placeless(fault)),
    }
}

/// Filters captures of several interfaces by a policy with this text while they come, and writes the report that the options
/// ask for. Packets are judged and told in the order in which their records become whole, numbered over all captures, each
/// with its interface; after each part of a capture what is told of the packets that it made whole. When all captures have
/// ended come the captures that end within a record, in the order of their ends, the totals, and the hits and sessions that
/// are asked for. As many workers as are asked for judge, who keep no verdict, but count, and remove sessions that have ended,
/// so that captures may be of any length. A fault says of which interface's capture it is, where it is of one, and leaves what
/// was written; but for Write no totals stand behind it.
pub fn run_live_interfaces<A: Arrivals, W: Sink, T: Clock + Threads + Wait + Sync>(
    rt: &T,
    alloc: Global,
    asked: LiveAsked<'_>,
    arrivals: &mut A,
    writer: &mut W,
) -> Result<Totals, FaultAt>
    requires arrivals { A.failures arrivals.old < 2 ^ 64 - 1 }
    requires writer { W.failures writer.old < 2 ^ 64 - 1 }
    ensures told { MatchResult result (HasRunComing asked.entry.options.now asked.entry.text.now (A.parts arrivals.old) (A.parts arrivals.new) (W.bytes writer.old) (W.bytes writer.new))
        (IsComingRunFault T asked.entry.options.now asked.entry.text.now (A.parts arrivals.old) (A.parts arrivals.new) (W.bytes writer.old) (W.bytes writer.new)) }
    ensures left { IfOk result (λ _. HaveAllEnded (A.left arrivals.new)) }
    ensures whose { IfErr result (λ found. found.fault ≡ Read → found.interface ≡ A.unread arrivals.new) }

    // A device's fault is answered where it failed, and it failed once.
    ensures read { MatchResult result (λ _. A.failures arrivals.new ≡ A.failures arrivals.old) (λ found. A.failures arrivals.new ≡ with_read (A.failures arrivals.old) found.fault) }
    ensures write { MatchResult result (λ _. W.failures writer.new ≡ W.failures writer.old) (λ found. W.failures writer.new ≡ with_write (W.failures writer.old) found.fault) }
{
    let LiveAsked { options, text } = asked;
    let policy = match read_policy(alloc, text) {
        Ok(policy) => policy,
        Err(cause) => return Err(placeless(Fault::from(cause))),
    };
    let filter = Filter {
        policy,
        times: options.times,
    };
    let Ok(prepared) = filter.prepare(alloc, EXPECTED) else {
        return Err(placeless(Fault::Memory));
    };
    let Ok(ready) = filter.ready_with(alloc, &prepared) else {
        return Err(placeless(Fault::Memory));
    };
    let way = LiveWay {
        options,
        text,
        filter: &ready,
    };
    let Ok(mut lines) = AskedLines::new(alloc, way, true) else {
        return Err(placeless(Fault::Memory));
    };
    tell_captures(rt, alloc, way, arrivals, writer, &mut lines)
}
