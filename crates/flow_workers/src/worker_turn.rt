//! A worker before its turn and after it.
use crate::gate::Gate;
use crate::judge_dealt_packets::judge_dealt_packets;
use crate::worker_share::{Share, WorkerJob};
use bihash_words::Shape;
use flow_dealing::Task;
use std::alloc::AllocError;
use std::sync::Wait;

/// What a worker is to do, or what it did.
#[derive(Drop)]
pub enum Turn<'t, 'f, 'a, A: Shape, B: Shape, R: Wait, G: Gate> {
    Ahead(WorkerJob<'t, 'f, 'a, A, B, R, G>),
    Over(Result<Share<A, B>, AllocError>),
}

impl<'t, 'f, 'a, A: Shape, B: Shape, R: Wait, G: Gate> Task for Turn<'t, 'f, 'a, A, B, R, G> {
    ghost use Rattle.flow_workers.specs.inner.Turns.{BecomesWorked, CanTakeTurn};

    ghost can_run = { CanTakeTurn ⟦<A as Shape>⟧ ⟦<B as Shape>⟧ };

    ghost becomes = { BecomesWorked ⟦<A as Shape>⟧ ⟦<B as Shape>⟧ };

    fn run(self) -> Turn<'t, 'f, 'a, A, B, R, G> {
        match self {
            Turn::Ahead(job) => Turn::Over(judge_dealt_packets(job)),
            Turn::Over(done) => Turn::Over(done),
        }
    }
}
