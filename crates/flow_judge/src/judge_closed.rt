//! A judge of which one family's table is closed: its sessions are given, and the judge goes on over a new one.
ghost use Rattle.std.specs.Prelude.{◌≡◌, IfErr, IfOk, true};
ghost use Rattle.std.specs.Arc.{arc_value};
ghost use Rattle.acl_policy.specs.Policies.{policy_facts};
ghost use Rattle.bihash_words.specs.Sizes.{IsSound, sizes_of};
ghost use Rattle.bihash_rule.specs.Callers.{IsLawfulCaller};
ghost use Rattle.bihash_steps.specs.CallerCalls.{IsIdle};
ghost use Rattle.flow_workers.specs.Calls.{MayAsk};
ghost use Rattle.flow_judge.specs.Closings.{IsClosedFour, IsClosedSix, IsFourKept, IsReopened, IsSixKept, StaysOwn};

use crate::counts::Counts;
use crate::end_fault::{EndFault, end_of_close};
use crate::judge::Judge;
use crate::tables_share::TablesShare;
use bihash_table::{Caller, Sessions, create_cutting};
use bihash_words::Shape;
use flow_filter::PreparedFilter;
use flow_workers::{Callers, Tables};
use packet_view::Family;
use std::alloc::Global;
use std::sync::Arc;

/// What a judge has, where its tables are its own.
pub(crate) type Parts<A, B> = (
    Arc<PreparedFilter, Global>,
    Tables<A, B>,
    Callers<A, B>,
    Counts,
);

// The pairs of a table, which ends, and a new table with its first caller. Refused, the table is the old one.
fn reopen<S: Shape>(
    alloc: Global,
    table: Sessions<S>,
    caller: Caller<S>,
) -> (Result<Vec<(S::Key, u64)>, EndFault>, Sessions<S>, Caller<S>)
    requires sound { IsSound (sizes_of S.Shape) }
    requires idle { IsIdle table.row caller.seat }
    requires lawful { IsLawfulCaller (sizes_of S.Shape) caller.seat.view }
    ensures closed { IfOk result.0 (λ ps. IsReopened ⟦<S as Shape>⟧ caller.seat ps.items result.2.seat) }
    ensures kept { IfErr result.0 (λ fault. StaysOwn (sizes_of S.Shape) caller.seat fault result.2.seat) }
    ensures idle { IsIdle result.1.row result.2.seat }
    ensures lawful { IsLawfulCaller (sizes_of S.Shape) result.2.seat.view }
{
    let Ok((new, first)) = create_cutting(alloc) else {
        return (Err(EndFault::Memory), table, caller);
    };
    match table.close(alloc, caller) {
        Ok(pairs) => (Ok(pairs), new, first),
        Err((fault, table, caller)) => (Err(end_of_close(fault)), table, caller),
    }
}

impl<A: Shape, B: Shape> Judge<A, B> {
    /// The judge in parts, where no other one has a share of its tables; else it comes back.
    pub(crate) fn into_parts(self) -> Result<Parts<A, B>, Judge<A, B>>
        ensures parts { IfOk result (λ r. MayAsk r.1 r.2 × (self ≡ record {
          policy = policy_facts (arc_value r.0).policy;
          times = (arc_value r.0).times;
          four = r.2.four.seat;
          six = r.2.six.seat;
          counts = r.3;
          shared = self.shared;
        })) }
        ensures back { IfErr result (λ r. (r ≡ self) × (self.shared ≡ true)) }
    {
        let Judge {
            filter,
            tables,
            callers,
            counts,
        } = self;
        match tables.into_own() {
            Ok(tables) => Ok((filter, tables, callers, counts)),
            Err(tables) => Err(Judge {
                filter,
                tables,
                callers,
                counts,
            }),
        }
    }

    /// The pairs of the table of IPv4 flows, sorted by the words of their keys, and the judge over a new table of them.
    /// Refused, the judge has the table still.
    pub fn close_four(self, alloc: Global) -> (Result<Vec<(A::Key, u64)>, EndFault>, Judge<A, B>)
        ensures closed { IfOk result.0 (λ ps. IsClosedFour ⟦<A as Shape>⟧ self ps.items result.1) }
        ensures kept { IfErr result.0 (λ fault. IsFourKept (sizes_of A.Shape) self fault result.1) }
    {
        let (filter, tables, callers, counts) = match self.into_parts() {
            Ok(parts) => parts,
            Err(judge) => {
                let (fault, judge) = judge.held(Family::V4);
                return (Err(fault), judge);
            }
        };
        let (pairs, four, caller) = reopen(alloc, tables.four, callers.four);
        let six = tables.six;
        let judge = Judge {
            filter,
            tables: TablesShare::Own(Tables { four, six }),
            callers: Callers {
                four: caller,
                six: callers.six,
            },
            counts,
        };
        (pairs, judge)
    }

    /// The pairs of the table of IPv6 flows, as `close_four` gives those of IPv4.
    pub fn close_six(self, alloc: Global) -> (Result<Vec<(B::Key, u64)>, EndFault>, Judge<A, B>)
        ensures closed { IfOk result.0 (λ ps. IsClosedSix ⟦<B as Shape>⟧ self ps.items result.1) }
        ensures kept { IfErr result.0 (λ fault. IsSixKept (sizes_of B.Shape) self fault result.1) }
    {
        let (filter, tables, callers, counts) = match self.into_parts() {
            Ok(parts) => parts,
            Err(judge) => {
                let (fault, judge) = judge.held(Family::V6);
                return (Err(fault), judge);
            }
        };
        let (pairs, six, caller) = reopen(alloc, tables.six, callers.six);
        let four = tables.four;
        let judge = Judge {
            filter,
            tables: TablesShare::Own(Tables { four, six }),
            callers: Callers {
                four: callers.four,
                six: caller,
            },
            counts,
        };
        (pairs, judge)
    }
}
