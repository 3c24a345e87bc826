//! All packets at once.
ghost use Rattle.std.specs.Prelude.{◌≡◌, ◌⊎◌, ◌≤◌, ◌<◌, ◌^◌, All, IfOk, length};
ghost use Rattle.packet_view.specs.CheckedCaptures.{remaining};
ghost use Rattle.packet_view.specs.declared.tuple.Family.{Family};
ghost use Rattle.acl_policy.specs.Policies.{policy_facts};
ghost use Rattle.flow_filter.specs.OneThread.{AreVerdicts, layout_of};
ghost use Rattle.flow_dealing.specs.declared.worker_of_flow.Dealing.TheVariants.{Bucket};
ghost use Rattle.flow_dealing.specs.Places.{PassAtPlaces};
ghost use Rattle.flow_dealing.specs.WorkerRecords.{AreFew, AreJudged, HasPagesIn, HavePages};
ghost use Rattle.flow_workers.specs.Callers.{AreShapes};
ghost use Rattle.flow_workers.specs.Progress.{HaveAllSaid, MayBegin};

use crate::gate::Gate;
use crate::run_fault::RunFault;
use crate::session_tables::{Callers, create_tables};
use crate::worker_setup::Setup;
use crate::workers::Workers;
use bihash_words::Shape;
use flow_dealing::Dealing;
use flow_filter::Filter;
use packet_view::Packets;
use session_state::Verdict;
use std::alloc::Global;
use std::sync::Wait;
use std::thread::Threads;

// Runs workers of this setup at once, on all packets: their verdicts, in the packets' order.
fn run_setup<
    A: Shape + Send + Sync,
    B: Shape + Send + Sync,
    R: Threads + Wait + Sync,
    G: Gate + Sync,
>(
    alloc: Global,
    setup: Setup<'_, '_, A, B, R, G>,
    callers: Callers<A, B>,
    packets: Packets<'_>,
) -> Result<Vec<Verdict>, RunFault>
where
    A::Key: Send + Sync,
    B::Key: Send + Sync,
    requires begin { MayBegin setup callers }
    requires fits { length (remaining packets) < 2 ^ 64 }
    ensures { IfOk result (λ v. HaveAllSaid ⟦<A as Shape>⟧ ⟦<B as Shape>⟧ setup.entry (remaining packets.entry) v.items) }
{
    match Workers::new(alloc, setup, callers) {
        Ok(mut workers) => match workers.judge(alloc, packets, false) {
            Ok(()) => match workers.end(alloc) {
                Ok((verdicts, _)) => Ok(verdicts),
                Err(fault) => Err(fault),
            },
            Err(fault) => Err(fault),
        },
        Err(fault) => Err(fault),
    }
}

/// The verdicts on the packets, in their order, by so many workers at once over new tables. A worker whose thread
/// can't be made is run by the calling thread. `Memory`: memory was refused.
pub fn run_workers<
    A: Shape + Send + Sync,
    B: Shape + Send + Sync,
    R: Threads + Wait + Sync,
    G: Gate + Sync,
>(
    rt: &R,
    alloc: Global,
    filter: &Filter,
    packets: Packets<'_>,
    workers: usize,
    gate: &G,
    dealing: Dealing,
) -> Result<Vec<Verdict>, RunFault>
where
    A::Key: Send + Sync,
    B::Key: Send + Sync,
    requires shapes { AreShapes ⟦<A as Shape>⟧ ⟦<B as Shape>⟧ }
    requires some { 1 ≤ workers }
    requires few { workers ≤ 16 }
    ensures judged { IfOk result (λ v. AreJudged
        (record { layout = layout_of ⟦<A as Shape>⟧ ⟦<B as Shape>⟧; dealing = dealing; workers = workers })
        filter.now.times (policy_facts filter.now.policy) (remaining packets.entry) v.items) }
    ensures one_report { IfOk result (λ v. (dealing ≡ Bucket) ⊎ (workers ≡ 1) → HavePages v.items
        → AreVerdicts (layout_of ⟦<A as Shape>⟧ ⟦<B as Shape>⟧) filter.now.times (policy_facts filter.now.policy)
        (remaining packets.entry) v.items) }
    ensures places { IfOk result (λ v. PassAtPlaces
        (record { layout = layout_of ⟦<A as Shape>⟧ ⟦<B as Shape>⟧; dealing = dealing; workers = workers })
        filter.now.times (policy_facts filter.now.policy) (remaining packets.entry) v.items) }
    ensures pages { IfOk result (λ v. (are : AreJudged
        (record { layout = layout_of ⟦<A as Shape>⟧ ⟦<B as Shape>⟧; dealing = dealing; workers = workers })
        filter.now.times (policy_facts filter.now.policy) (remaining packets.entry) v.items) (family : Family)
        → AreFew (layout_of ⟦<A as Shape>⟧ ⟦<B as Shape>⟧) family are.judged
        → All (HasPagesIn family) are.judged) }
{
    let (tables, callers) = create_tables::<A, B>(alloc)?;
    let prepared = filter.prepare(alloc, packets.count())?;
    let ready = filter.ready_with(alloc, &prepared)?;
    let setup = Setup {
        rt,
        gate,
        filter: &ready,
        tables: &tables,
        dealing,
        workers,
        many: 0,
        ages: false,
    };
    run_setup(alloc, setup, callers, packets)
}
