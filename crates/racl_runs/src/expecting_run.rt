//! One run over a capture whose verdicts are compared with expected ones while it comes.
ghost use Rattle.std.specs.Prelude.{◌≡◌, ◌-◌, ◌<◌, ◌^◌, ◌++◌, MatchResult};
ghost use Rattle.acl_policy.specs.Policies.{policy_facts};
ghost use Rattle.racl_io.specs.Tellings.{HasToldText, end_alone, with_write};
ghost use Rattle.capture_stream.specs.Lives.{with_read};
ghost use Rattle.compared_verdicts.specs.Meeting.{met_told};
ghost use Rattle.racl_runs.specs.ExpectingRuns.{ComparesAll, EndsExpecting};

use crate::capture_header_reading::read_header;
use crate::compared_judging::Comparing;
use crate::pace::Stopwatch;
use crate::run_plan::EXPECTED;
use crate::sized_tables_and_workers::{Manner, SizedWorkers, create_sized};
use crate::workers_as_judges::HandingCrew;
use acl_policy::read_policy;
use capture_stream::Unsaved;
use compared_verdicts::{Expectation, UnmetLines, any_open, is_met, write_met};
use filter_run::{CaptureStart, OpenCapture, ReportedCapture, report_capture};
use flow_filter::InterfaceFilters;
use flow_workers::Filter;
use packet_view::Order;
use racl_io::{Fault, Piece, Sink, Source, Teller, Totals, captured_alone};
use racl_options::Options;
use std::alloc::Global;
use std::sync::Wait;
use std::thread::Threads;
use std::time::Clock;

/// What a run is asked for that compares verdicts with expected ones: its options, its policy's text, and what is expected.
#[derive(Clone, Copy)]
pub struct ExpectingAsked<'t> {
    pub options: &'t Options,
    pub text: &'t [u8],
    pub expectations: &'t [Expectation],
}

/// What such a run goes by: its options, what is expected, rules that are ready, and the order of the capture's numbers; and
/// where it gets memory.
#[derive(Clone, Copy)]
pub struct ExpectingHead<'t, 'f> {
    pub alloc: Global,
    pub options: &'t Options,
    pub expectations: &'t [Expectation],
    pub filter: &'t InterfaceFilters<'f>,
    pub order: Order,
}

/// Whether all is as expected, and whether the capture was cut off.
#[derive(Clone, Copy, Debug, PartialEq, Eq)]
pub struct Compared {
    pub met: bool,
    pub truncated: bool,
}

// Behind the packets is told what else isn't as expected, or that all of so many expectations are met.
fn tell_last<L: Teller, W: Sink>(
    writer: &mut W,
    teller: &mut L,
    piece: &mut Piece,
    totals: &Totals,
    met: bool,
    count: usize,
) -> Result<(), Fault>
    requires { W.failures writer.old < 2 ^ 64 - 1 }
    ensures { HasToldText W.bytes W.failures writer.old writer.new (end_alone (L.wording teller.old) totals.now ++ met_told met count) result }
{
    let captures = [captured_alone(totals)];
    match teller.tell_end(writer, &captures, totals) {
        Ok(()) => write_met(writer, piece, met, count),
        Err(fault) => Err(fault),
    }
}

// One worker judges the packets of the capture behind its header, and its verdicts are compared, while they come.
fn compare_all<R: Source, W: Sink, T: Clock + Threads + Wait + Sync>(
    rt: &T,
    head: ExpectingHead<'_, '_>,
    reader: &mut R,
    writer: &mut W,
) -> Result<Compared, Fault>
    requires times { head.filter.now.times ≡ head.options.now.times }
    requires sound { (R.failures reader.old < 2 ^ 64 - 1) × (W.failures writer.old < 2 ^ 64 - 1) }
    ensures told { ComparesAll head.entry.options.now head.entry.expectations.now (policy_facts head.entry.filter.now.policy.now) head.entry.order
        (R.bytes reader.old) (R.bytes reader.new) (W.bytes writer.old) (W.bytes writer.new) result }
    ensures read { MatchResult result (λ _. R.failures reader.new ≡ R.failures reader.old) (λ fault. R.failures reader.new ≡ with_read (R.failures reader.old) fault) }
    ensures write { MatchResult result (λ _. W.failures writer.new ≡ W.failures writer.old) (λ fault. W.failures writer.new ≡ with_write (W.failures writer.old) fault) }
{
    let alloc = head.alloc;
    let expectations = head.expectations;
    let Ok(mut teller) = UnmetLines::new(alloc, expectations) else {
        return Err(Fault::Memory);
    };
    let Ok(mut piece) = Piece::new(alloc) else {
        return Err(Fault::Memory);
    };
    let Ok((tables, callers)) = create_sized(alloc, head.options.tables, head.options.ages) else {
        return Err(Fault::Memory);
    };
    let manner = Manner {
        filter: head.filter,
        workers: 1,
    };
    let Ok(workers) = SizedWorkers::new(rt, alloc, manner, &tables, callers) else {
        return Err(Fault::Memory);
    };
    let judges = Comparing {
        crew: HandingCrew {
            alloc,
            workers,
            watch: Stopwatch::new(rt),
        },
        expectations,
        judged: 0,
        unmet: false,
    };
    let capture = OpenCapture {
        judges,
        start: CaptureStart::behind_header(alloc, head.order),
        many: None,
    };
    let mut saver = Unsaved;
    let told = match report_capture(alloc, reader, writer, &mut teller, &mut saver, capture) {
        Ok(told) => told,
        Err(fault) => return Err(fault),
    };
    let ReportedCapture { judges, totals } = told;
    let Comparing { crew, unmet, .. } = judges;
    let Ok(_) = crew.end(alloc) else {
        return Err(Fault::Memory);
    };
    let met = is_met(unmet, any_open(expectations, &totals));
    match tell_last(
        writer,
        &mut teller,
        &mut piece,
        &totals,
        met,
        expectations.len(),
    ) {
        Ok(()) => Ok(Compared {
            met,
            truncated: totals.truncated,
        }),
        Err(fault) => Err(fault),
    }
}

/// Judges a capture by a policy with this text while it comes, and writes a line for each packet whose verdict isn't as
/// expected: after each read of all packets whose records were read whole; and at its end what else isn't as expected, or
/// that all is. One worker judges, keeps no verdict, and removes sessions that have ended where that is asked for. A
/// capture may be of any length. A fault leaves what was written.
pub fn run_expecting<R: Source, W: Sink, T: Clock + Threads + Wait + Sync>(
    rt: &T,
    alloc: Global,
    asked: ExpectingAsked<'_>,
    reader: &mut R,
    writer: &mut W,
) -> Result<Compared, Fault>
    requires sound { (R.failures reader.old < 2 ^ 64 - 1) × (W.failures writer.old < 2 ^ 64 - 1) }
    ensures told { EndsExpecting asked.entry.options.now asked.entry.text.now asked.entry.expectations.now (R.bytes reader.old) (R.bytes reader.new) (W.bytes writer.old) (W.bytes writer.new) result }

    // A device's fault is answered where it failed, and it failed once.
    ensures read { MatchResult result (λ _. R.failures reader.new ≡ R.failures reader.old) (λ fault. R.failures reader.new ≡ with_read (R.failures reader.old) fault) }
    ensures write { MatchResult result (λ _. W.failures writer.new ≡ W.failures writer.old) (λ fault. W.failures writer.new ≡ with_write (W.failures writer.old) fault) }
{
    let ExpectingAsked {
        options,
        text,
        expectations,
    } = asked;
    let policy = match read_policy(alloc, text) {
        Ok(policy) => policy,
        Err(cause) => return Err(Fault::from(cause)),
    };
    let order = match read_header(alloc, reader) {
        Ok(order) => order,
        Err(fault) => return Err(fault),
    };
    let filter = Filter {
        policy,
        times: options.times,
    };
    let Ok(prepared) = filter.prepare(alloc, EXPECTED) else {
        return Err(Fault::Memory);
    };
    let Ok(ready) = filter.ready_with(alloc, &prepared) else {
        return Err(Fault::Memory);
    };
    let head = ExpectingHead {
        alloc,
        options,
        expectations,
        filter: &ready,
        order,
    };
    compare_all(rt, head, reader, writer)
}
