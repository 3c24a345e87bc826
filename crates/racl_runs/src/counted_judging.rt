//! Workers who hand their verdicts over, and whose packets are counted where hits are asked for.

use crate::sized_tables_and_workers::SizedCallers;
use crate::workers_as_judges::HandingCrew;
use acl_policy::Policy;
use capture_stream::Judge;
use flow_workers::Verdict;
use packet_view::Packets;
use racl_views::HitCounts;
use std::alloc::{AllocError, Global};
use std::sync::Wait;
use std::thread::Threads;
use std::time::Clock;

/// Workers, the policy that they go by, and the counts of the packets that they judged.
#[derive(Drop)]
pub struct Counted<'t, 'f, T: Wait> {
    pub crew: HandingCrew<'t, 'f, T>,
    pub policy: &'f Policy,
    /// Whether packets are counted.
    pub asked: bool,
    pub counts: HitCounts,
}

impl<'t, 'f, T: Clock + Threads + Wait + Sync> Judge for Counted<'t, 'f, T> {
    ghost use Rattle.std.specs.Thread.{IsSync};
    ghost use Rattle.racl_runs.specs.Crews.{AreSaidSoFar, HaveCountedAfter, orders_of};

    ghost became = { λ begun packets said counted. IsSync T.row × HaveCountedAfter (orders_of begun.crew.workers) begun.asked packets said counted };

    ghost judged = { λ begun packets said. AreSaidSoFar T (orders_of begun.crew.workers) packets said };

    // The workers judge these packets, which are counted by their verdicts.
    fn judge(&mut self, packets: Packets<'_>) -> Result<Vec<Verdict>, AllocError> {
        let said = self.crew.judge(packets)?;
        if !self.asked {
            return Ok(said);
        }
        self.counts.count(self.policy, packets, &said)?;
        Ok(said)
    }
}

impl<'t, 'f, T: Wait> Counted<'t, 'f, T> {
    ghost use Rattle.std.specs.Prelude.{Bool, IfOk, List};
    ghost use Rattle.packet_view.specs.Captures.{PacketFacts};
    ghost use Rattle.session_state.specs.declared.verdict.Verdict.{Verdict};
    ghost use Rattle.racl_runs.specs.Crews.{HaveCountedAfter, HaveEndedCounting, Orders};

    /// The workers end: the counts, and all callers of each table as one. An error says that memory was refused.
    pub fn end(self, alloc: Global) -> Result<(HitCounts, SizedCallers), AllocError>
        requires { (orders : Orders) × (asked : Bool) × (packets : List PacketFacts) × (said : List Verdict) × HaveCountedAfter orders asked packets said self }
        ensures { IfOk result (λ r. (orders : Orders) (asked : Bool) (packets : List PacketFacts) (said : List Verdict)
            → HaveCountedAfter orders asked packets said self.entry → HaveEndedCounting orders asked packets said r.0 r.1) }
    {
        let Counted { crew, counts, .. } = self;
        match crew.end(alloc) {
            Ok(callers) => Ok((counts, callers)),
            Err(_) => Err(AllocError),
        }
    }
}
