//! The turns of all workers at packets.
ghost use Rattle.std.specs.Prelude.{◌≡◌, All, IfOk, map, Ok};
ghost use Rattle.flow_workers.specs.declared.worker_turn.Turn.TheVariants.{Over};
ghost use Rattle.flow_workers.specs.inner.Jobs.{AreDealtFrom};
ghost use Rattle.flow_workers.specs.inner.Turns.{AreTurnsAhead, AreTurns, HaveWorked, IsTurnPast, MayJudgeBatch};

use crate::gate::Gate;
use crate::worker_share::{Batch, Dealt, Share, WorkerJob};
use crate::worker_turn::Turn;
use bihash_words::Shape;
use flow_dealing::run_all;
use std::alloc::{AllocError, Global};
use std::sync::Wait;
use std::thread::Threads;

// The turns of workers that have these shares, in their order.
fn turns_of<'t, 'f, 'a, A: Shape, B: Shape, R: Wait, G: Gate>(
    alloc: Global,
    batch: Batch<'t, 'f, 'a, A, B, R, G>,
    dealt: Dealt<'t, 'a>,
    shares: Vec<Share<A, B>>,
) -> Result<Vec<Turn<'t, 'f, 'a, A, B, R, G>>, AllocError>
    ensures { IfOk result (λ v. AreTurns batch.entry dealt.entry shares.items v.items) }
{
    let mut turns = Vec::new(alloc);
    let mut worker = 0;
    for share in shares {
        turns.push(Turn::Ahead(WorkerJob {
            batch: batch.again(),
            dealt,
            worker,
            share,
        }))?;
        worker += 1;
    }
    Ok(turns)
}

// They are ready where each worker may judge the packets of the batch.
fn turns_ahead<'t, 'f, 'a, A: Shape, B: Shape, R: Wait, G: Gate>(
    alloc: Global,
    batch: Batch<'t, 'f, 'a, A, B, R, G>,
    dealt: Dealt<'t, 'a>,
    shares: Vec<Share<A, B>>,
) -> Result<Vec<Turn<'t, 'f, 'a, A, B, R, G>>, AllocError>
    requires may { MayJudgeBatch batch shares.items }
    requires dealt { AreDealtFrom ⟦<A as Shape>⟧ ⟦<B as Shape>⟧ batch 0 dealt.chunks.now.items }
    ensures { IfOk result (λ v. AreTurnsAhead batch.entry dealt.entry shares.items v.items) }
{
    turns_of(alloc, batch, dealt, shares)
}

// The share after a turn, where that was refused no memory.
fn share_of<'t, 'f, 'a, A: Shape, B: Shape, R: Wait, G: Gate>(
    turn: Turn<'t, 'f, 'a, A, B, R, G>,
) -> Result<Share<A, B>, AllocError>
    requires { IsTurnPast ⟦<A as Shape>⟧ ⟦<B as Shape>⟧ turn }
    ensures { IfOk result (λ share. turn.entry ≡ Over (Ok share)) }
{
    let Turn::Over(done) = turn else {
        unreachable!()
    };
    done
}

// The shares after all turns, where none of them was refused memory.
fn shares_over<'t, 'f, 'a, A: Shape, B: Shape, R: Wait, G: Gate>(
    alloc: Global,
    turns: Vec<Turn<'t, 'f, 'a, A, B, R, G>>,
) -> Result<Vec<Share<A, B>>, AllocError>
    requires { All (IsTurnPast ⟦<A as Shape>⟧ ⟦<B as Shape>⟧) turns.items }
    ensures { IfOk result (λ v. turns.entry.items ≡ map (λ share. Over (Ok share)) v.items) }
{
    let mut shares = Vec::new(alloc);
    for turn in turns {
        let share = share_of(turn)?;
        shares.push(share)?;
    }
    Ok(shares)
}

/// The shares of all workers after each judged its packets of a batch in a thread of its own, or in this one where none can
/// be made.
pub fn run_shares<
    't,
    'f,
    'a,
    A: Shape + Send + Sync,
    B: Shape + Send + Sync,
    R: Threads + Wait + Sync,
    G: Gate + Sync,
>(
    alloc: Global,
    batch: Batch<'t, 'f, 'a, A, B, R, G>,
    dealt: Dealt<'t, 'a>,
    shares: Vec<Share<A, B>>,
) -> Result<Vec<Share<A, B>>, AllocError>
where
    A::Key: Send + Sync,
    B::Key: Send + Sync,
    requires may { MayJudgeBatch batch shares.items }
    requires dealt { AreDealtFrom ⟦<A as Shape>⟧ ⟦<B as Shape>⟧ batch 0 dealt.chunks.now.items }
    ensures { IfOk result (λ v. HaveWorked batch.entry shares.items v.items) }
{
    let rt = batch.setup.rt;
    let ahead = turns_ahead(alloc, batch, dealt, shares)?;
    let over = run_all(rt, ahead)?;
    shares_over(alloc, over)
}
