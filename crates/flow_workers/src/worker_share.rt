//! What a worker is given, and what it gives back.
use crate::ageing_clock::AgeingClock;
use crate::gate::Gate;
use crate::session_tables::Callers;
use crate::worker_setup::Setup;
use bihash_table::Caller;
use bihash_words::Shape;
use flow_dealing::DealtChunk;
use packet_view::Packets;
use session_state::Verdict;
use std::sync::Wait;

/// Packets that follow each other, which all workers judge.
#[derive(Drop)]
pub struct Batch<'t, 'f, 'a, A: Shape, B: Shape, R: Wait, G: Gate> {
    pub setup: Setup<'t, 'f, A, B, R, G>,
    /// The number of the first of these packets, from 0.
    pub first: usize,
    pub packets: Packets<'a>,
}

impl<'t, 'f, 'a, A: Shape, B: Shape, R: Wait, G: Gate> Batch<'t, 'f, 'a, A, B, R, G> {
    ghost use Rattle.std.specs.Prelude.{◌≡◌};

    /// The batch once more, for another worker with a share.
    pub fn again(&self) -> Batch<'t, 'f, 'a, A, B, R, G>
        ensures { result ≡ self.now }
    {
        Batch {
            setup: self.setup.again(),
            first: self.first,
            packets: self.packets,
        }
    }
}

/// The packets of a batch with their workers, in chunks.
#[derive(Clone, Copy)]
pub struct Dealt<'t, 'a> {
    pub chunks: &'t Vec<DealtChunk<'a>>,
}

/// What a worker is given: its number, from 0, and its share so far.
#[derive(Drop)]
pub struct WorkerJob<'t, 'f, 'a, A: Shape, B: Shape, R: Wait, G: Gate> {
    pub batch: Batch<'t, 'f, 'a, A, B, R, G>,
    pub dealt: Dealt<'t, 'a>,
    pub worker: usize,
    pub share: Share<A, B>,
}

/// What a worker has of its own, and gives back with more.
#[derive(Drop)]
pub struct Share<A: Shape, B: Shape> {
    pub callers: Callers<A, B>,
    /// What it said of its packets and hasn't let go, in their order.
    pub said: Vec<Verdict>,
    /// When it ages next.
    pub clock: AgeingClock,
}

/// The shares of all workers, each list in the workers' order.
#[derive(Drop)]
pub struct WorkerResults<A: Shape, B: Shape> {
    pub four: Vec<Caller<A>>,
    pub six: Vec<Caller<B>>,
    pub said: Vec<Vec<Verdict>>,
}
