//! All workers, each in a thread of its own: the packets of a batch are dealt, and then judged at once.
ghost use Rattle.std.specs.Prelude.{◌≡◌, ◌<◌, IfOk};
ghost use Rattle.flow_workers.specs.inner.Shares.{workers_in};
ghost use Rattle.flow_workers.specs.inner.Together.{HaveJudgedBatch};
ghost use Rattle.flow_workers.specs.inner.Turns.{MayJudgeBatch};

use crate::gate::Gate;
use crate::turns_in_threads::run_shares;
use crate::worker_share::{Batch, Dealt, Share};
use bihash_words::Shape;
use flow_dealing::{DealtChunk, DealtRoom, deal_packets};
use std::alloc::{AllocError, Global};
use std::mem::replace;
use std::sync::Wait;
use std::thread::Threads;

// The worker of each packet of these chunks, which is noted before the packets are judged in threads.
fn note_workers(alloc: Global, dealt: &[DealtChunk<'_>]) -> Result<Vec<u8>, AllocError>
    ensures { IfOk result (λ judges. judges.items ≡ workers_in dealt.now) }
{
    let mut judges = Vec::new(alloc);
    for chunk in dealt {
        judges.extend_from_slice(chunk.workers.as_slice())?;
    }
    Ok(judges)
}

// The lists of these chunks, for the next packets.
fn keep_rooms(dealt: Vec<DealtChunk<'_>>, rooms: &mut Vec<DealtRoom>) -> Result<(), AllocError> {
    for chunk in dealt {
        rooms.push(chunk.room())?;
    }
    Ok(())
}

/// The packets of a batch are judged by all workers, each in a thread of its own: the worker of each packet. The lists in which
/// packets are dealt are those of earlier batches, where there are any, and are kept for later ones.
pub fn judge_in_threads<
    A: Shape + Send + Sync,
    B: Shape + Send + Sync,
    R: Threads + Wait + Sync,
    G: Gate + Sync,
>(
    alloc: Global,
    batch: &Batch<'_, '_, '_, A, B, R, G>,
    shares: &mut Vec<Share<A, B>>,
    rooms: &mut Vec<DealtRoom>,
) -> Result<Vec<u8>, AllocError>
where
    A::Key: Send + Sync,
    B::Key: Send + Sync,
    requires may { MayJudgeBatch batch.now shares.old.items }
    requires several { 1 < batch.now.setup.workers }
    ensures { IfOk result (λ judges. HaveJudgedBatch batch.now shares.old.items shares.new.items judges.items) }
{
    let setup = &batch.setup;
    let dealt = deal_packets::<A, B, R>(
        setup.rt,
        alloc,
        setup.dealer(),
        batch.first,
        batch.packets,
        replace(rooms, Vec::new(alloc)),
    )?;
    let judges = note_workers(alloc, dealt.as_slice())?;
    let before = replace(shares, Vec::new(alloc));
    *shares = run_shares(alloc, batch.again(), Dealt { chunks: &dealt }, before)?;
    keep_rooms(dealt, rooms)?;
    Ok(judges)
}
