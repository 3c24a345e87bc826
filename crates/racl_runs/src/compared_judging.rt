//! Workers who hand their verdicts over, which are compared with expected ones.
ghost use Rattle.std.specs.Prelude.{◌≡◌, ◌||◌};

use crate::workers_as_judges::HandingCrew;
use capture_stream::Judge;
use compared_verdicts::{Expectation, any_unmet};
use flow_workers::Verdict;
use packet_view::Packets;
use std::alloc::AllocError;
use std::sync::Wait;
use std::thread::Threads;
use std::time::Clock;

/// Workers, what is expected of their verdicts, how many packets they judged, and whether a verdict on one isn't as expected.
#[derive(Drop)]
pub struct Comparing<'t, 'f, 'e, T: Wait> {
    pub crew: HandingCrew<'t, 'f, T>,
    pub expectations: &'e [Expectation],
    pub judged: u64,
    pub unmet: bool,
}

// Whether a verdict that was compared, or one of others, isn't as expected.
fn either(one: bool, other: bool) -> bool
    ensures { result ≡ (one || other) }
{
    one || other
}

impl<'t, 'f, 'e, T: Clock + Threads + Wait + Sync> Judge for Comparing<'t, 'f, 'e, T> {
    ghost use Rattle.std.specs.Thread.{IsSync};
    ghost use Rattle.racl_runs.specs.Crews.{AreSaidSoFar, orders_of};
    ghost use Rattle.racl_runs.specs.inner.Comparings.{HasComparedAfter};

    ghost became = { λ begun packets said comparing. IsSync T.row × HasComparedAfter (orders_of begun.crew.workers) begun.expectations.now packets said comparing };

    ghost judged = { λ begun packets said. AreSaidSoFar T (orders_of begun.crew.workers) packets said };

    // The workers judge these packets, and their verdicts are compared.
    fn judge(&mut self, packets: Packets<'_>) -> Result<Vec<Verdict>, AllocError> {
        let said = self.crew.judge(packets)?;
        let unmet = any_unmet(self.expectations, self.judged, &said);
        self.unmet = either(self.unmet, unmet);
        self.judged += said.len() as u64;
        Ok(said)
    }
}
