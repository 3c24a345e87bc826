//! One chunk of the packets, which a thread deals.
ghost use Rattle.std.specs.Prelude.{◌≡◌, length, IfOk};
ghost use Rattle.packet_view.specs.Captures.{packet_facts};
ghost use Rattle.flow_dealing.specs.inner.Chunks.{CanDeal, HasDealtNext, IsChunkOfJob, MayDeal};

use crate::chunk::DealingJob;
use crate::dealer::{Dealer, worker_of_packet};
use crate::dealt_chunk::{DealtChunk, DealtPacket};
use crate::other_sighting::see_other;
use crate::plain_sighting::see_plain;
use bihash_words::Shape;
use packet_view::{Packet, PacketBursts};
use std::alloc::AllocError;

// Deals the next packet of a chunk, which has this number, by the view of its frame. Few frames aren't plain, and the path of
// plain ones is shorter without this.
#[inline(never)]
fn deal_other<'a, A: Shape, B: Shape>(
    dealer: &Dealer,
    number: usize,
    packet: Packet<'a>,
    chunk: &mut DealtChunk<'a>,
) -> Result<(), AllocError>
    requires may { MayDeal ⟦<A as Shape>⟧ ⟦<B as Shape>⟧ dealer.now }
    requires lists { length chunk.old.own.items ≡ dealer.now.workers }
    ensures { IfOk result (λ _. HasDealtNext ⟦<A as Shape>⟧ ⟦<B as Shape>⟧ dealer.now number (packet_facts packet.entry) chunk.old chunk.new) }
{
    let seen = see_other::<A, B>(packet);
    let worker = worker_of_packet::<A, B>(dealer, number, &seen.hashed);
    chunk.hand_other(worker, packet)
}

// Deals the next packet of a chunk, which has this number.
#[inline(always)]
fn deal_next<'a, A: Shape, B: Shape>(
    dealer: &Dealer,
    number: usize,
    packet: Packet<'a>,
    chunk: &mut DealtChunk<'a>,
) -> Result<(), AllocError>
    requires may { MayDeal ⟦<A as Shape>⟧ ⟦<B as Shape>⟧ dealer.now }
    requires lists { length chunk.old.own.items ≡ dealer.now.workers }
    ensures { IfOk result (λ _. HasDealtNext ⟦<A as Shape>⟧ ⟦<B as Shape>⟧ dealer.now number (packet_facts packet.entry) chunk.old chunk.new) }
{
    let Ok(at) = u32::try_from(chunk.workers.len()) else {
        return deal_other::<A, B>(dealer, number, packet, chunk);
    };
    let Some(seen) = see_plain::<A, B>(&packet) else {
        return deal_other::<A, B>(dealer, number, packet, chunk);
    };
    let worker = worker_of_packet::<A, B>(dealer, number, &seen.hashed_flow());
    chunk.hand(worker, DealtPacket::Plain(at, seen))
}

/// Deals the packets of a chunk.
pub fn deal_chunk<'a, A: Shape, B: Shape>(
    job: DealingJob<'a, A, B>,
) -> Result<DealtChunk<'a>, AllocError>
    requires { CanDeal ⟦<A as Shape>⟧ ⟦<B as Shape>⟧ job }
    ensures { IfOk result (IsChunkOfJob ⟦<A as Shape>⟧ ⟦<B as Shape>⟧ job.entry) }
{
    let mut chunk = job.chunk;
    let mut packets = PacketBursts::new(job.packets.behind(job.first));
    for at in job.first..job.next {
        let Some(packet) = packets.next() else {
            unreachable!()
        };
        deal_next::<A, B>(&job.dealer, job.number + at, packet, &mut chunk)?;
    }
    Ok(chunk)
}
