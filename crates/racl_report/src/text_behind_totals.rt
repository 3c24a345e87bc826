//! What stands behind the totals of a report on packets that were told while they came.
ghost use Rattle.std.specs.Prelude.{◌≡◌, ◌-◌, ◌<◌, ◌^◌, ◌++◌, true, IfOk};
ghost use Rattle.acl_policy.specs.Policies.{IsPolicyText};
ghost use Rattle.racl_io.specs.Sinks.{HasPutFront};
ghost use Rattle.racl_report.specs.BehindTotals.{IsBehind};
ghost use Rattle.racl_report.specs.RunReports;
ghost use Rattle.racl_views.specs.HitCounts.{HaveCounted};
ghost use Rattle.racl_views.specs.Hits.{AreHits};
ghost use Rattle.racl_views.specs.RunEntries.{RunFacts};
ghost use Rattle.racl_views.specs.Stored.{stored_facts};

use crate::asked_report::{sessions_of, view_behind};
use racl_io::{Fault, Sink, write_all};
use racl_options::Options;
use racl_views::{HitCounts, StoredPairs, count_sessions, counted_hits_text};
use std::alloc::{AllocError, Global};

/// What stands behind the totals: hits, and behind them sessions.
#[derive(Drop)]
pub struct Behind {
    pub hits: Vec<u8>,
    pub sessions: Vec<u8>,
}

// What is told of hits behind the totals, where the options ask for it.
fn counted_hits_of(
    alloc: Global,
    options: &Options,
    text: &[u8],
    latest: u32,
    counts: &HitCounts,
    stored: &StoredPairs,
) -> Result<Vec<u8>, AllocError>
    ensures { IfOk result (λ told. (run : RunFacts) → run.text ≡ text.now → IsPolicyText run.text run.policy
        → (options.now.hits ≡ true → HaveCounted run.policy run.packets run.verdicts counts.now)
        → AreHits options.now.hits (RunReports.view_behind options.now.lines) options.now.times latest run (stored_facts stored.now) told.items) }
{
    if options.hits {
        let sessions = count_sessions(options.times, latest, counts, stored);
        counted_hits_text(alloc, view_behind(options.lines), text, counts, sessions)
    } else {
        Ok(Vec::new(alloc))
    }
}

/// What stands behind the totals as the options ask, under a policy with this text, where packets were counted so and these
/// sessions stand in the tables, which are counted at this second. An `Err` says that memory ran out.
pub fn behind_totals(
    alloc: Global,
    options: &Options,
    text: &[u8],
    latest: u32,
    counts: &HitCounts,
    stored: &StoredPairs,
) -> Result<Behind, AllocError>
    ensures { IfOk result (IsBehind options.now text.now latest counts.now (stored_facts stored.now)) }
{
    let hits = counted_hits_of(alloc, options, text, latest, counts, stored)?;
    let sessions = sessions_of(alloc, options, stored)?;
    Ok(Behind { hits, sessions })
}

/// Writes what stands behind the totals.
pub fn write_behind<W: Sink>(writer: &mut W, behind: &Behind) -> Result<(), Fault>
    requires { W.failures writer.old < 2 ^ 64 - 1 }
    ensures { HasPutFront W.bytes W.failures writer.old writer.new (behind.now.hits.items ++ behind.now.sessions.items) result }
{
    match write_all(writer, &behind.hits) {
        Ok(()) => write_all(writer, &behind.sessions),
        Err(fault) => Err(fault),
    }
}
