//! Callers of workers: made before their turns, and taken together after them.
ghost use Rattle.std.specs.Prelude.{◌≡◌, IfOk};
ghost use Rattle.bihash_words.specs.Sizes.{sizes_of};
ghost use Rattle.bihash_steps.specs.CallerCalls.{AreIdle};
ghost use Rattle.flow_workers.specs.inner.CallerSplits.{AreJoined, AreJoinedWhole, AreNew, IsJoinedOne, IsMadeWhole, IsNewCaller, MayJoin};
ghost use Rattle.flow_workers.specs.inner.Shares.{AreFresh};

use crate::session_tables::{Callers, Tables};
use bihash_table::{Caller, Sessions, SplitFault};
use bihash_words::Shape;
use std::alloc::{AllocError, Global};
use std::sync::Wait;

// The caller, and a new one. A split that is refused for another cause than memory is tried again.
fn split_one<S: Shape, R: Wait>(
    rt: &R,
    alloc: Global,
    table: &Sessions<S>,
    mut caller: Caller<S>,
) -> Result<(Caller<S>, Caller<S>), AllocError>
    requires { IsNewCaller table.now caller.seat }
    ensures { IfOk result (λ r. AreNew (sizes_of S.Shape) table.now r.0.seat r.1.seat) }
{
    for _ in rt.forever() {
        match table.split(alloc, caller) {
            Ok(both) => return Ok(both),
            Err((SplitFault::Memory, _)) => return Err(AllocError),
            Err((_, back)) => caller = back,
        }
    }
    unreachable!()
}

/// The callers, and new ones.
pub fn split_both<A: Shape, B: Shape, R: Wait>(
    rt: &R,
    alloc: Global,
    tables: &Tables<A, B>,
    callers: Callers<A, B>,
) -> Result<(Callers<A, B>, Callers<A, B>), AllocError>
    requires { AreFresh tables.now callers }
    ensures { IfOk result (λ r. AreFresh tables.now r.0 × AreFresh tables.now r.1) }
{
    let Callers { four, six } = callers;
    let (own_four, next_four) = split_one(rt, alloc, &tables.four, four)?;
    let (own_six, next_six) = split_one(rt, alloc, &tables.six, six)?;
    let own = Callers {
        four: own_four,
        six: own_six,
    };
    let next = Callers {
        four: next_four,
        six: next_six,
    };
    Ok((own, next))
}

/// A worker's caller, and that of all workers after it, as one.
pub fn join_one<S: Shape>(table: &Sessions<S>, worker: Caller<S>, others: Caller<S>) -> Caller<S>
    requires { AreIdle table.now.row worker.seat others.seat }
    ensures { IsJoinedOne (sizes_of S.Shape) table.now worker.seat others.seat result.seat }
{
    table.join(worker, others)
}

/// The callers of all workers, in their order, as one.
pub fn join_all<S: Shape>(table: &Sessions<S>, mut callers: Vec<Caller<S>>) -> Caller<S>
    requires { MayJoin table.now callers.items }
    ensures { AreJoined table.now callers.items result.seat }
{
    let Some(mut joined) = callers.pop() else {
        unreachable!()
    };
    while let Some(caller) = callers.pop() {
        joined = join_one(table, caller, joined);
    }
    joined
}

/// Counts the callers until this one is found to have every number.
pub fn wait_until_lone<S: Shape, R: Wait>(rt: &R, table: &Sessions<S>, caller: &mut Caller<S>)
    requires { caller.old.seat.row ≡ table.now.row }
    ensures { IsMadeWhole (sizes_of S.Shape) caller.old.seat caller.new.seat }
{
    for _ in rt.forever() {
        if table.is_lone(caller) {
            return;
        }
    }
    unreachable!()
}

/// The callers of all workers, in their order, as one that made each write that it knows.
pub fn join_worker_callers<S: Shape, R: Wait>(
    rt: &R,
    table: &Sessions<S>,
    callers: Vec<Caller<S>>,
) -> Caller<S>
    requires { MayJoin table.now callers.items }
    ensures { AreJoinedWhole (sizes_of S.Shape) table.now callers.items result.seat }
{
    let mut joined = join_all(table, callers);
    wait_until_lone(rt, table, &mut joined);
    joined
}
