//! Workers as those who judge the packets of a capture.

use crate::pace::Stopwatch;
use crate::sized_tables_and_workers::{SizedCallers, SizedWorkers};
use capture_stream::Judge;
use flow_workers::Verdict;
use packet_view::Packets;
use std::alloc::{AllocError, Global};
use std::sync::Wait;
use std::thread::Threads;
use std::time::Clock;

/// Workers that hand over their verdicts, where they get memory, and what times them.
#[derive(Drop)]
pub struct HandingCrew<'t, 'f, T: Wait> {
    pub alloc: Global,
    pub workers: SizedWorkers<'t, 'f, T>,
    pub watch: Stopwatch<'t, T>,
}

impl<'t, 'f, T: Clock + Threads + Wait + Sync> Judge for HandingCrew<'t, 'f, T> {
    ghost use Rattle.std.specs.Thread.{IsSync};
    ghost use Rattle.racl_runs.specs.Crews.{AreSaidSoFar, HaveSaidAfter, orders_of};

    ghost became = { λ begun packets said crew. IsSync T.row × HaveSaidAfter (orders_of begun.workers) packets said crew.workers };

    ghost judged = { λ begun packets said. AreSaidSoFar T (orders_of begun.workers) packets said };

    // The workers judge these packets, as judges of a capture, and hand over the verdicts.
    fn judge(&mut self, packets: Packets<'_>) -> Result<Vec<Verdict>, AllocError> {
        let began = self.watch.start(packets.count());
        let by_turns = self.watch.pace.takes_turns();
        let said = match &mut self.workers {
            SizedWorkers::Standard(workers) => workers.judge_on(self.alloc, packets, by_turns),
            SizedWorkers::Large(workers) => workers.judge_on(self.alloc, packets, by_turns),
        };
        self.watch.stop(began, packets.count());
        match said {
            Ok(said) => Ok(said),
            Err(_) => Err(AllocError),
        }
    }
}

impl<'t, 'f, T: Wait> HandingCrew<'t, 'f, T> {
    ghost use Rattle.std.specs.Prelude.{IfOk};
    ghost use Rattle.racl_runs.specs.Crews.{AreAllSaidBy, HaveSaidAll};

    /// The workers end: all callers of each table as one. An error says that memory was refused.
    pub fn end(self, alloc: Global) -> Result<SizedCallers, AllocError>
        requires { HaveSaidAll self.workers }
        ensures { IfOk result (AreAllSaidBy self.entry.workers) }
    {
        let HandingCrew { workers, .. } = self;
        match workers.end(alloc) {
            Ok((_, callers)) => Ok(callers),
            Err(_) => Err(AllocError),
        }
    }
}
