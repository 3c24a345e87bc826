//! One run over a capture whose packets are judged by two policies while it comes.
ghost use Rattle.std.specs.Prelude.{◌≡◌, ◌-◌, ◌<◌, ◌^◌, MatchResult};
ghost use Rattle.racl_runs.specs.DiffRuns.{AreTimesOf, ComparesWith, EndsDiff, HaveFailed, policies_in, with_diff_read, with_diff_write};

use crate::capture_header_reading::read_header;
use crate::pace::Stopwatch;
use crate::run_plan::EXPECTED;
use crate::sized_tables_and_workers::{Manner, SizedWorkers, create_sized};
use crate::workers_as_judges::HandingCrew;
use acl_policy::{PolicyFault, read_policy};
use compared_verdicts::{ChangeTotals, PolicyPair, report_changes};
use flow_filter::InterfaceFilters;
use flow_workers::Filter;
use packet_view::Order;
use racl_io::{Fault, Sink, Source};
use racl_options::Options;
use std::alloc::Global;
use std::sync::Wait;
use std::thread::Threads;
use std::time::Clock;

/// The text of a policy, and of the one that is to take its place.
#[derive(Clone, Copy)]
pub struct PolicyTexts<'a> {
    pub before: &'a [u8],
    pub after: &'a [u8],
}

/// Why not all is told of what a change of policy changes.
#[derive(Clone, Copy, Debug, PartialEq, Eq)]
pub enum DiffFault {
    /// The policy so far is none.
    Before(PolicyFault),
    /// The one that is to take its place is none.
    After(PolicyFault),
    /// Memory ran out, a device failed, or the capture has a fault.
    Run(Fault),
}

/// What packets are compared by: options, the rules of a policy and of the one that is to take its place, and the order of the
/// capture's numbers.
#[derive(Clone, Copy)]
pub struct DiffHead<'t, 'f, 'u, 'g, 'o> {
    pub options: &'o Options,
    pub before: &'t InterfaceFilters<'f>,
    pub after: &'u InterfaceFilters<'g>,
    pub order: Order,
}

// Two workers judge the packets of the capture behind its header, each by a policy over tables of its own, while they come.
// Sessions that have ended are removed where that is asked for.
fn compare_capture<R: Source, W: Sink, T: Clock + Threads + Wait + Sync>(
    rt: &T,
    alloc: Global,
    head: DiffHead<'_, '_, '_, '_, '_>,
    reader: &mut R,
    writer: &mut W,
) -> Result<ChangeTotals, Fault>
    requires sound { AreTimesOf head × (R.failures reader.old < 2 ^ 64 - 1) × (W.failures writer.old < 2 ^ 64 - 1) }
    ensures told { ComparesWith head.entry.options.now (policies_in head.entry) head.entry.order (R.bytes reader.old) (R.bytes reader.new) (W.bytes writer.old) (W.bytes writer.new) result }
    ensures failures { HaveFailed (R.failures reader.old) (R.failures reader.new) (W.failures writer.old) (W.failures writer.new) result }
{
    let Ok((tables, callers)) = create_sized(alloc, head.options.tables, head.options.ages) else {
        return Err(Fault::Memory);
    };
    let Ok((others, other_callers)) = create_sized(alloc, head.options.tables, head.options.ages)
    else {
        return Err(Fault::Memory);
    };
    let manner = Manner {
        filter: head.before,
        workers: 1,
    };
    let Ok(workers) = SizedWorkers::new(rt, alloc, manner, &tables, callers) else {
        return Err(Fault::Memory);
    };
    let manner = Manner {
        filter: head.after,
        workers: 1,
    };
    let Ok(other_workers) = SizedWorkers::new(rt, alloc, manner, &others, other_callers) else {
        return Err(Fault::Memory);
    };
    let judges = (
        HandingCrew {
            alloc,
            workers,
            watch: Stopwatch::new(rt),
        },
        HandingCrew {
            alloc,
            workers: other_workers,
            watch: Stopwatch::new(rt),
        },
    );
    let policies = PolicyPair {
        before: head.before.policy,
        after: head.after.policy,
    };
    report_changes(alloc, reader, writer, policies, judges, head.order)
}

/// Judges a capture by two policies with these texts while it comes, and writes a line for each packet on which they say more
/// than rules of other numbers: after each read of all packets whose records were read whole; and at its end the totals. One
/// worker for each policy judges, over tables of its own, and keeps no verdict. Where the options say so sessions that have
/// ended are removed, so that tables have room for a capture of any length. A fault leaves what was written.
pub fn run_diff<R: Source, W: Sink, T: Clock + Threads + Wait + Sync>(
    rt: &T,
    alloc: Global,
    options: &Options,
    texts: PolicyTexts<'_>,
    reader: &mut R,
    writer: &mut W,
) -> Result<ChangeTotals, DiffFault>
    requires sound { (R.failures reader.old < 2 ^ 64 - 1) × (W.failures writer.old < 2 ^ 64 - 1) }
    ensures told { EndsDiff options.now texts.entry (R.bytes reader.old) (R.bytes reader.new) (W.bytes writer.old) (W.bytes writer.new) result }

    // A device's fault is answered where it failed, and it failed once.
    ensures read { MatchResult result (λ _. R.failures reader.new ≡ R.failures reader.old) (λ fault. R.failures reader.new ≡ with_diff_read (R.failures reader.old) fault) }
    ensures write { MatchResult result (λ _. W.failures writer.new ≡ W.failures writer.old) (λ fault. W.failures writer.new ≡ with_diff_write (W.failures writer.old) fault) }
{
    let before = match read_policy(alloc, texts.before) {
        Ok(policy) => policy,
        Err(cause) => return Err(DiffFault::Before(cause)),
    };
    let after = match read_policy(alloc, texts.after) {
        Ok(policy) => policy,
        Err(cause) => return Err(DiffFault::After(cause)),
    };
    let order = match read_header(alloc, reader) {
        Ok(order) => order,
        Err(fault) => return Err(DiffFault::Run(fault)),
    };
    let before = Filter {
        policy: before,
        times: options.times,
    };
    let after = Filter {
        policy: after,
        times: options.times,
    };
    let Ok(prepared) = before.prepare(alloc, EXPECTED) else {
        return Err(DiffFault::Run(Fault::Memory));
    };
    let Ok(ready) = before.ready_with(alloc, &prepared) else {
        return Err(DiffFault::Run(Fault::Memory));
    };
    let Ok(other_prepared) = after.prepare(alloc, EXPECTED) else {
        return Err(DiffFault::Run(Fault::Memory));
    };
    let Ok(other_ready) = after.ready_with(alloc, &other_prepared) else {
        return Err(DiffFault::Run(Fault::Memory));
    };
    let head = DiffHead {
        options,
        before: &ready,
        after: &other_ready,
        order,
    };
    match compare_capture(rt, alloc, head, reader, writer) {
        Ok(totals) => Ok(totals),
        Err(fault) => Err(DiffFault::Run(fault)),
    }
}
