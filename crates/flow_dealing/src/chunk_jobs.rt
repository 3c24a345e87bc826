//! All chunks of the packets.
ghost use Rattle.std.specs.Prelude.{◌≡◌, ◌≤◌, ◌<◌, ◌+◌, ◌^◌, All, IfOk, length, map, Ok};
ghost use Rattle.packet_view.specs.CheckedCaptures.{remaining};
ghost use Rattle.flow_dealing.specs.declared.chunk.Chunk.TheVariants.{Over};
ghost use Rattle.flow_dealing.specs.inner.Chunks.{AreChunksAhead, IsAhead, IsChunkPast, MayDeal};
ghost use Rattle.flow_dealing.specs.inner.OwnPackets.{IsEmptyChunk};

use crate::chunk::{Chunk, DealingJob};
use crate::dealer::Dealer;
use crate::dealt_chunk::{DealtChunk, DealtRoom, empty_chunk};
use bihash_words::Shape;
use packet_view::Packets;
use std::alloc::{AllocError, Global};
use std::marker::PhantomData;

// How many of the packets that are left the next chunk gets, where so many chunks are left.
fn share(left: usize, chunks: usize) -> usize
    requires { 1 ≤ chunks }
    ensures inside { result ≤ left }
    ensures last { chunks ≡ 1 → result ≡ left }
{
    if chunks == 1 { left } else { left / chunks }
}

// The job of dealing the packets from one place on, up to another, into an empty chunk, which is ahead.
fn chunk_ahead<'a, A: Shape, B: Shape>(
    dealer: Dealer,
    number: usize,
    packets: Packets<'a>,
    first: usize,
    next: usize,
    empty: DealtChunk<'a>,
) -> Chunk<'a, A, B>
    requires may { MayDeal ⟦<A as Shape>⟧ ⟦<B as Shape>⟧ dealer }
    requires fits { number + length (remaining packets) < 2 ^ 64 }
    requires forward { first ≤ next }
    requires inside { next ≤ length (remaining packets) }
    requires empty { IsEmptyChunk dealer.workers empty }
    ensures { IsAhead ⟦<A as Shape>⟧ ⟦<B as Shape>⟧ dealer number packets.entry first next result }
{
    Chunk::Ahead(DealingJob {
        dealer,
        packets,
        number,
        first,
        next,
        chunk: empty,
        shapes: PhantomData,
    })
}

/// The jobs of so many chunks of the packets, into lists that were kept where there are any. The packets' numbers begin with
/// this one. This thread gets the memory for all chunks: what another thread gives back goes back to the system.
pub fn chunks_ahead<'a, A: Shape, B: Shape>(
    alloc: Global,
    dealer: Dealer,
    number: usize,
    packets: Packets<'a>,
    count: usize,
    kept: Vec<DealtRoom>,
) -> Result<Vec<Chunk<'a, A, B>>, AllocError>
    requires may { MayDeal ⟦<A as Shape>⟧ ⟦<B as Shape>⟧ dealer }
    requires fits { number + length (remaining packets) < 2 ^ 64 }
    requires some { 1 ≤ count }
    ensures { IfOk result (λ v. AreChunksAhead ⟦<A as Shape>⟧ ⟦<B as Shape>⟧ dealer number packets.entry count v.items) }
{
    let mut kept = kept;
    let mut chunks = Vec::with_capacity(alloc, count)?;
    let mut first = 0;
    for chunk in 0..count {
        let next = first + share(packets.count() - first, count - chunk);
        let empty = empty_chunk(alloc, kept.pop(), dealer.workers, next - first)?;
        chunks.push(chunk_ahead(dealer, number, packets, first, next, empty))?;
        first = next;
    }
    Ok(chunks)
}

/// The packets that the jobs of all chunks dealt, where none of them was refused memory.
pub fn chunks_over<'a, A: Shape, B: Shape>(
    alloc: Global,
    chunks: Vec<Chunk<'a, A, B>>,
) -> Result<Vec<DealtChunk<'a>>, AllocError>
    requires { All IsChunkPast chunks.items }
    ensures { IfOk result (λ v. chunks.entry.items ≡ map (λ chunk. Over (Ok chunk)) v.items) }
{
    let mut all = Vec::with_capacity(alloc, chunks.len())?;
    for chunk in chunks {
        let Chunk::Over(done) = chunk else {
            unreachable!()
        };
        all.push(done?)?;
    }
    Ok(all)
}
