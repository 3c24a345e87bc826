//! One worker: each packet that is dealt to it is judged, in the order of the file.
ghost use Rattle.std.specs.Prelude.{◌+◌, IfOk, length};
ghost use Rattle.flow_workers.specs.inner.Jobs.{CanWork, HasWorkedOn, IsShareOf, MayJudgeChunk};

use crate::gate::Gate;
use crate::worker_ageing::age_where_due;
use crate::worker_packet_verdict::{judge_by_view, judge_sighting};
use crate::worker_share::{Batch, Share, WorkerJob};
use bihash_words::Shape;
use flow_dealing::{DealtChunk, DealtPacket};
use std::alloc::AllocError;
use std::sync::Wait;

// Judges the worker's packets of a dealt chunk, which begins at this place among those of the batch.
fn judge_chunk<'a, A: Shape, B: Shape, R: Wait, G: Gate>(
    batch: &Batch<'_, '_, 'a, A, B, R, G>,
    worker: usize,
    first: usize,
    chunk: &DealtChunk<'a>,
    share: &mut Share<A, B>,
) -> Result<(), AllocError>
    requires { MayJudgeChunk ⟦<A as Shape>⟧ ⟦<B as Shape>⟧ batch.now worker first chunk.now share.old }
    ensures { IfOk result (λ _. HasWorkedOn ⟦<A as Shape>⟧ ⟦<B as Shape>⟧ batch.now worker first
        (first + length chunk.now.workers.items) share.old share.new) }
{
    let own = chunk.own[worker].as_slice();
    let others = chunk.others.as_slice();
    for dealt in own {
        match dealt {
            DealtPacket::Plain(place, seen) => {
                let at = first + *place as usize;
                age_where_due(batch, worker, at, seen.moment, share);
                judge_sighting(batch, worker, at, seen, share)?;
            }
            DealtPacket::Other(place, other) => {
                let at = first + *place;
                let packet = &others[*other];
                age_where_due(batch, worker, at, packet.moment, share);
                judge_by_view(batch, worker, at, packet, share)?;
            }
        }
    }
    Ok(())
}

/// Judges the packets of a worker.
pub fn judge_dealt_packets<'t, 'f, 'a, A: Shape, B: Shape, R: Wait, G: Gate>(
    job: WorkerJob<'t, 'f, 'a, A, B, R, G>,
) -> Result<Share<A, B>, AllocError>
    requires { CanWork ⟦<A as Shape>⟧ ⟦<B as Shape>⟧ job }
    ensures { IfOk result (λ share. IsShareOf ⟦<A as Shape>⟧ ⟦<B as Shape>⟧ job.entry share) }
{
    let WorkerJob {
        batch,
        dealt,
        worker,
        mut share,
    } = job;
    let expected = batch.packets.count() / batch.setup.workers;
    share.said.reserve(expected)?;
    let mut first = 0;
    for chunk in dealt.chunks.as_slice() {
        judge_chunk(&batch, worker, first, chunk, &mut share)?;
        first += chunk.workers.len();
    }
    Ok(share)
}
