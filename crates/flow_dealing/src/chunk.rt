//! A chunk of the packets before it is dealt and after it.
use crate::chunk_dealing::deal_chunk;
use crate::dealer::Dealer;
use crate::dealt_chunk::DealtChunk;
use crate::tasks_in_threads::Task;
use bihash_words::Shape;
use packet_view::Packets;
use std::alloc::AllocError;
use std::marker::PhantomData;

/// Which of the packets are to be dealt: those from one place on, up to another.
#[derive(Drop)]
pub struct DealingJob<'a, A, B> {
    pub dealer: Dealer,
    /// All packets.
    pub packets: Packets<'a>,
    /// The number of the first of all packets.
    pub number: usize,
    /// The place of the first one among all, from 0.
    pub first: usize,
    /// The place of the first one behind them.
    pub next: usize,
    /// Where they go. It has no packet yet.
    pub chunk: DealtChunk<'a>,
    /// What their buckets go by.
    pub shapes: PhantomData<(A, B)>,
}

/// What is to be dealt, or what was.
#[derive(Drop)]
pub enum Chunk<'a, A, B> {
    Ahead(DealingJob<'a, A, B>),
    Over(Result<DealtChunk<'a>, AllocError>),
}

impl<'a, A: Shape, B: Shape> Task for Chunk<'a, A, B> {
    ghost use Rattle.flow_dealing.specs.inner.Chunks.{BecomesDealt, CanRunChunk};

    ghost can_run = { CanRunChunk ⟦<A as Shape>⟧ ⟦<B as Shape>⟧ };

    ghost becomes = { BecomesDealt ⟦<A as Shape>⟧ ⟦<B as Shape>⟧ };

    /// As a task, a chunk is dealt.
    fn run(self) -> Chunk<'a, A, B> {
        match self {
            Chunk::Ahead(job) => Chunk::Over(deal_chunk(job)),
            Chunk::Over(done) => Chunk::Over(done),
        }
    }
}
