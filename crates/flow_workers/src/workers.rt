//! Workers that judge packets in batches.
use crate::gate::Gate;
use crate::judge_in_one_thread::{judge_by_one, judge_by_turns};
use crate::judge_in_threads::judge_in_threads;
use crate::run_fault::RunFault;
use crate::session_tables::Callers;
use crate::share_splitting::split_shares;
use crate::verdict_merge::{all_verdicts, let_go_merged, place_verdicts};
use crate::worker_callers::join_worker_callers;
use crate::worker_results::results_of;
use crate::worker_setup::Setup;
use crate::worker_share::{Batch, Share, WorkerResults};
use bihash_words::Shape;
use flow_dealing::DealtRoom;
use packet_view::Packets;
use session_state::Verdict;
use std::alloc::Global;
use std::mem::replace;
use std::sync::Wait;
use std::thread::Threads;

/// Workers, and what they have after the packets that they judged so far.
#[derive(Drop)]
pub struct Workers<'t, 'f, A: Shape, B: Shape, R: Wait, G: Gate> {
    pub setup: Setup<'t, 'f, A, B, R, G>,
    /// What each worker has, in their order.
    pub shares: Vec<Share<A, B>>,
    /// The verdicts on the packets that they judged and didn't hand over, in the packets' order, where there are several
    /// workers. Those of one are in its share.
    pub verdicts: Vec<Verdict>,
    /// How many packets they judged.
    pub count: usize,
    /// The lists in which packets were dealt, for the next ones.
    pub rooms: Vec<DealtRoom>,
}

impl<'t, 'f, A: Shape, B: Shape, R: Wait, G: Gate> Workers<'t, 'f, A, B, R, G> {
    ghost use Rattle.std.specs.Prelude.{IfOk};
    ghost use Rattle.flow_workers.specs.Progress.{AreBegun, CanEnd, HaveEnded, MayBegin};

    /// Workers that judged no packet. The callers are of the setup's tables, and made no call. `Memory`: memory was
    /// refused.
    pub fn new(
        alloc: Global,
        setup: Setup<'t, 'f, A, B, R, G>,
        callers: Callers<A, B>,
    ) -> Result<Workers<'t, 'f, A, B, R, G>, RunFault>
        requires { MayBegin setup callers }
        ensures { IfOk result (AreBegun setup.entry) }
    {
        let shares = split_shares(
            setup.rt,
            alloc,
            setup.tables,
            callers,
            setup.workers,
            setup.ages,
        )?;
        Ok(Workers {
            setup,
            shares,
            verdicts: Vec::new(alloc),
            count: 0,
            rooms: Vec::new(alloc),
        })
    }

    /// The verdicts on all packets, in their order, and all callers of each table as one. `Memory`: memory was refused.
    pub fn end(self, alloc: Global) -> Result<(Vec<Verdict>, Callers<A, B>), RunFault>
        requires { CanEnd self }
        ensures { IfOk result (λ r. HaveEnded self.entry r.0.items r.1) }
    {
        let Workers {
            setup,
            shares,
            verdicts,
            ..
        } = self;
        let WorkerResults { four, six, said } = results_of(alloc, shares)?;
        let callers = Callers {
            four: join_worker_callers(setup.rt, &setup.tables.four, four),
            six: join_worker_callers(setup.rt, &setup.tables.six, six),
        };
        Ok((all_verdicts(verdicts, said), callers))
    }
}

impl<
    't,
    'f,
    A: Shape + Send + Sync,
    B: Shape + Send + Sync,
    R: Threads + Wait + Sync,
    G: Gate + Sync,
> Workers<'t, 'f, A, B, R, G>
where
    A::Key: Send + Sync,
    B::Key: Send + Sync,
{
    ghost use Rattle.std.specs.Prelude.{IfOk};
    ghost use Rattle.flow_workers.specs.Progress.{CanJudge, HaveJudged, HaveJudgedOn};

    /// They judge these packets too, which follow those so far: each worker in a thread of its own, or by turns in the calling
    /// thread where that is asked for or the packets are few. A worker whose thread can't be made is run by the calling thread.
    /// `Memory`: memory was refused, and they judge no more.
    pub fn judge(
        &mut self,
        alloc: Global,
        packets: Packets<'_>,
        by_turns: bool,
    ) -> Result<(), RunFault>
        requires { CanJudge self.old packets }
        ensures { IfOk result (λ _. HaveJudged self.old packets.entry self.new) }
    {
        let batch = Batch {
            setup: self.setup.again(),
            first: self.count,
            packets,
        };
        let count = packets.count();
        self.count += count;
        if self.setup.is_alone() {
            judge_by_one(&batch, &mut self.shares[0])?;
            return Ok(());
        }
        let judged = if by_turns || count < self.setup.many {
            judge_by_turns(alloc, &batch, &mut self.shares)
        } else {
            judge_in_threads(alloc, &batch, &mut self.shares, &mut self.rooms)
        };
        let judges = judged?;
        let before = replace(&mut self.verdicts, Vec::new(alloc));
        self.verdicts = place_verdicts(before, judges.as_slice(), self.shares.as_slice())?;
        let_go_merged(&mut self.shares);
        Ok(())
    }

    /// They judge these packets too, which follow those so far, and hand over what they say. `Memory`: memory was refused,
    /// and they judge no more.
    pub fn judge_on(
        &mut self,
        alloc: Global,
        packets: Packets<'_>,
        by_turns: bool,
    ) -> Result<Vec<Verdict>, RunFault>
        requires { CanJudge self.old packets }
        ensures { IfOk result (λ verdicts. HaveJudgedOn self.old packets.entry self.new verdicts.items) }
    {
        match self.judge(alloc, packets, by_turns) {
            Ok(()) => Ok(self.hand_over(alloc)),
            Err(fault) => Err(fault),
        }
    }
}
