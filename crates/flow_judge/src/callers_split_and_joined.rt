//! Callers of both families' tables, split, told of one another, and joined.
ghost use Rattle.std.specs.Prelude.{◌≡◌, IfOk, IfErr};
ghost use Rattle.bihash_steps.specs.CallerCalls.{AreInformed, IsJoined};
ghost use Rattle.bihash_words.specs.Sizes.{sizes_of};
ghost use Rattle.flow_filter.specs.OneThread.{layout_of};
ghost use Rattle.flow_workers.specs.Callers.{AreIdle};
ghost use Rattle.flow_judge.specs.Judges.{AreSplitRefused, IsSplit};

use bihash_table::SplitFault;
use bihash_words::Shape;
use flow_workers::{Callers, Tables};
use std::alloc::Global;

/// The callers, and new ones of the same tables. Refused, the callers come back.
pub fn split_callers<A: Shape, B: Shape>(
    alloc: Global,
    tables: &Tables<A, B>,
    callers: Callers<A, B>,
) -> Result<(Callers<A, B>, Callers<A, B>), (SplitFault, Callers<A, B>)>
    requires { AreIdle ⟦<A as Shape>⟧ ⟦<B as Shape>⟧ tables.now callers }
    ensures idle { IfOk result (λ r. AreIdle ⟦<A as Shape>⟧ ⟦<B as Shape>⟧ tables.now r.0
        × AreIdle ⟦<A as Shape>⟧ ⟦<B as Shape>⟧ tables.now r.1) }
    ensures four { IfOk result (λ r. IsSplit (sizes_of A.Shape) callers.four.seat r.0.four.seat r.1.four.seat) }
    ensures six { IfOk result (λ r. IsSplit (sizes_of B.Shape) callers.six.seat r.0.six.seat r.1.six.seat) }
    ensures back { IfErr result (λ r. AreIdle ⟦<A as Shape>⟧ ⟦<B as Shape>⟧ tables.now r.1) }
    ensures refused { IfErr result (λ r. AreSplitRefused (layout_of ⟦<A as Shape>⟧ ⟦<B as Shape>⟧) r.0
        callers.four.seat callers.six.seat r.1.four.seat r.1.six.seat) }
{
    let Callers { four, six } = callers;
    let (four, new_four) = match tables.four.split(alloc, four) {
        Ok(both) => both,
        Err((fault, four)) => return Err((fault, Callers { four, six })),
    };
    match tables.six.split(alloc, six) {
        Ok((six, new_six)) => Ok((
            Callers { four, six },
            Callers {
                four: new_four,
                six: new_six,
            },
        )),
        Err((fault, six)) => {
            let four = tables.four.join(four, new_four);
            Err((fault, Callers { four, six }))
        }
    }
}

/// The callers, which have the numbers and records of the others then.
pub fn join_callers<A: Shape, B: Shape>(
    tables: &Tables<A, B>,
    callers: Callers<A, B>,
    others: Callers<A, B>,
) -> Callers<A, B>
    requires first { AreIdle ⟦<A as Shape>⟧ ⟦<B as Shape>⟧ tables.now callers }
    requires second { AreIdle ⟦<A as Shape>⟧ ⟦<B as Shape>⟧ tables.now others }
    ensures idle { AreIdle ⟦<A as Shape>⟧ ⟦<B as Shape>⟧ tables.now result }
    ensures four { IsJoined (sizes_of A.Shape) callers.four.seat others.four.seat result.four.seat }
    ensures six { IsJoined (sizes_of B.Shape) callers.six.seat others.six.seat result.six.seat }
{
    let four = tables.four.join(callers.four, others.four);
    let six = tables.six.join(callers.six, others.six);
    Callers { four, six }
}

/// Callers of the same tables, each of which knows what either knew.
pub fn meet_callers<A: Shape, B: Shape>(
    tables: &Tables<A, B>,
    callers: Callers<A, B>,
    others: Callers<A, B>,
) -> (Callers<A, B>, Callers<A, B>)
    requires first { AreIdle ⟦<A as Shape>⟧ ⟦<B as Shape>⟧ tables.now callers }
    requires second { AreIdle ⟦<A as Shape>⟧ ⟦<B as Shape>⟧ tables.now others }
    ensures four { AreInformed (sizes_of A.Shape) callers.four.seat others.four.seat result.0.four.seat result.1.four.seat }
    ensures six { AreInformed (sizes_of B.Shape) callers.six.seat others.six.seat result.0.six.seat result.1.six.seat }
    ensures idle { AreIdle ⟦<A as Shape>⟧ ⟦<B as Shape>⟧ tables.now result.0 }
    ensures other { AreIdle ⟦<A as Shape>⟧ ⟦<B as Shape>⟧ tables.now result.1 }
{
    let (four, other_four) = tables.four.meet(callers.four, others.four);
    let (six, other_six) = tables.six.meet(callers.six, others.six);
    (
        Callers { four, six },
        Callers {
            four: other_four,
            six: other_six,
        },
    )
}
