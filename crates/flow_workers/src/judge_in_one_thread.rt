//! All workers in one thread: each packet is judged by its worker, in the order of the file.
ghost use Rattle.std.specs.Prelude.{IfOk};
ghost use Rattle.packet_view.specs.Captures.{packet_facts};
ghost use Rattle.flow_workers.specs.inner.Jobs.{HasWorked};
ghost use Rattle.flow_workers.specs.inner.Together.{HasJudgedNext, HaveJudgedBatch, MayJudgeByOne, MayJudgeNext};
ghost use Rattle.flow_workers.specs.inner.Turns.{MayJudgeBatch};

use crate::gate::Gate;
use crate::loads_ahead::load_ahead_at;
use crate::worker_ageing::age_where_due;
use crate::worker_packet_verdict::{judge_other, judge_packet, judge_sighting};
use crate::worker_share::{Batch, Share};
use bihash_words::Shape;
use flow_dealing::{see_other, see_plain, worker_of_packet};
use packet_view::{Packet, PacketBursts};
use std::alloc::{AllocError, Global};
use std::sync::Wait;

// The packet at this place of the batch is judged by its worker, whose number is answered.
#[inline(always)]
fn judge_next<A: Shape, B: Shape, R: Wait, G: Gate>(
    batch: &Batch<'_, '_, '_, A, B, R, G>,
    at: usize,
    packet: &Packet<'_>,
    shares: &mut Vec<Share<A, B>>,
) -> Result<usize, AllocError>
    requires { MayJudgeNext ⟦<A as Shape>⟧ ⟦<B as Shape>⟧ batch.now at (packet_facts packet.now) shares.old.items }
    ensures { IfOk result (HasJudgedNext ⟦<A as Shape>⟧ ⟦<B as Shape>⟧ batch.now at (packet_facts packet.now) shares.old.items shares.new.items) }
{
    let dealer = batch.setup.dealer();
    let number = batch.first + at;
    let Some(seen) = see_plain::<A, B>(packet) else {
        let other = see_other::<A, B>(*packet);
        let worker = worker_of_packet::<A, B>(&dealer, number, &other.hashed);
        let share = &mut shares[worker];
        age_where_due(batch, worker, at, packet.moment, share);
        judge_other(batch, worker, at, &other, share)?;
        return Ok(worker);
    };
    let worker = worker_of_packet::<A, B>(&dealer, number, &seen.hashed_flow());
    let share = &mut shares[worker];
    age_where_due(batch, worker, at, seen.moment, share);
    judge_sighting(batch, worker, at, &seen, share)?;
    Ok(worker)
}

/// The packets of a batch are judged by the only worker, who has all of them.
pub fn judge_by_one<A: Shape, B: Shape, R: Wait, G: Gate>(
    batch: &Batch<'_, '_, '_, A, B, R, G>,
    share: &mut Share<A, B>,
) -> Result<(), AllocError>
    requires { MayJudgeByOne ⟦<A as Shape>⟧ ⟦<B as Shape>⟧ batch.now share.old }
    ensures { IfOk result (λ _. HasWorked ⟦<A as Shape>⟧ ⟦<B as Shape>⟧ batch.now 0 share.old share.new) }
{
    share.said.reserve(batch.packets.count())?;
    let mut packets = PacketBursts::new(batch.packets);
    let mut taken = 0;
    'packets: while let Some(packet) = packets.next() {
        load_ahead_at(taken, batch.setup.tables, packets.found_ahead());
        age_where_due(batch, 0, taken, packet.moment, share);
        judge_packet(batch, 0, taken, &packet, share)?;
        taken += 1;
    }
    Ok(())
}

/// The packets of a batch are judged by all workers, each packet by its own, one after the other in this thread: the worker of
/// each packet.
pub fn judge_by_turns<A: Shape, B: Shape, R: Wait, G: Gate>(
    alloc: Global,
    batch: &Batch<'_, '_, '_, A, B, R, G>,
    shares: &mut Vec<Share<A, B>>,
) -> Result<Vec<u8>, AllocError>
    requires { MayJudgeBatch batch.now shares.old.items }
    ensures { IfOk result (λ judges. HaveJudgedBatch batch.now shares.old.items shares.new.items judges.items) }
{
    let mut judges = Vec::new(alloc);
    judges.reserve(batch.packets.count())?;
    let mut packets = PacketBursts::new(batch.packets);
    let mut taken = 0;
    'packets: while let Some(packet) = packets.next() {
        load_ahead_at(taken, batch.setup.tables, packets.found_ahead());
        let worker = judge_next(batch, taken, &packet, shares)?;
        judges.push(worker as u8)?;
        taken += 1;
    }
    Ok(judges)
}
