//! The pairs of both tables, which end.
ghost use Rattle.std.specs.Prelude.{IfErr, IfOk};
ghost use Rattle.bihash_words.specs.Sizes.{sizes_of};
ghost use Rattle.bihash_table.specs.Closing.{ArePairsOf, WasWhole};
ghost use Rattle.flow_workers.specs.Callers.{AreIdle};
ghost use Rattle.flow_workers.specs.Closings.{AreLeftOpen};

use crate::session_tables::{Callers, Tables};
use bihash_table::{Caller, CloseFault, Sessions};
use bihash_words::Shape;
use std::alloc::Global;

/// What is left of tables that could not both be closed. Nothing that they held is lost.
#[derive(Drop)]
pub enum Unclosed<A: Shape, B: Shape> {
    /// The table of IPv4 could not be closed: both tables, and their callers.
    Both(Tables<A, B>, Callers<A, B>),
    /// That of IPv6 could not: the pairs of the table of IPv4, which ended, and the table of IPv6 with its caller.
    Six(Vec<(A::Key, u64)>, Sessions<B>, Caller<B>),
}

/// The pairs of each table, which end, sorted by the words of their keys, first word first. `Strangers`: some caller of a
/// table wasn't joined into this one. `Memory`: memory was refused. Refused, what was not closed comes back, and the pairs of
/// what was.
pub fn close_tables<A: Shape, B: Shape>(
    alloc: Global,
    tables: Tables<A, B>,
    callers: Callers<A, B>,
) -> Result<(Vec<(A::Key, u64)>, Vec<(B::Key, u64)>), (CloseFault, Unclosed<A, B>)>
    requires { AreIdle ⟦<A as Shape>⟧ ⟦<B as Shape>⟧ tables callers }
    ensures four { IfOk result (λ r. ArePairsOf ⟦<A as Shape>⟧ callers.four.seat.view.known r.0.items) }
    ensures six { IfOk result (λ r. ArePairsOf ⟦<B as Shape>⟧ callers.six.seat.view.known r.1.items) }
    ensures whole { IfOk result (λ _. WasWhole (sizes_of A.Shape) callers.four.seat.view
        × WasWhole (sizes_of B.Shape) callers.six.seat.view) }
    ensures left { IfErr result (λ r. AreLeftOpen ⟦<A as Shape>⟧ ⟦<B as Shape>⟧ tables callers r.0 r.1) }
{
    let Tables { four, six } = tables;
    let Callers {
        four: caller_four,
        six: caller_six,
    } = callers;
    let pairs_four = match four.close(alloc, caller_four) {
        Ok(pairs) => pairs,
        Err((fault, four, caller)) => {
            let tables = Tables { four, six };
            let callers = Callers {
                four: caller,
                six: caller_six,
            };
            return Err((fault, Unclosed::Both(tables, callers)));
        }
    };
    match six.close(alloc, caller_six) {
        Ok(pairs_six) => Ok((pairs_four, pairs_six)),
        Err((fault, six, caller)) => Err((fault, Unclosed::Six(pairs_four, six, caller))),
    }
}
