//! A judge split, and joined with another one.
ghost use Rattle.std.specs.Prelude.{IfOk, IfErr};
ghost use Rattle.flow_filter.specs.OneThread.{layout_of};
ghost use Rattle.flow_judge.specs.Judges.{AreOfOneTable, AreSplitJudges, IsJoinedJudge, IsSplitJudgeRefused};

use crate::callers_split_and_joined::{join_callers, split_callers};
use crate::counts::Counts;
use crate::judge::Judge;
use bihash_table::SplitFault;
use bihash_words::Shape;
use std::alloc::Global;
use std::sync::Arc;

impl<A: Shape, B: Shape> Judge<A, B> {
    /// The judge, and a new one by the same policy over the same tables. Refused, the judge comes back.
    pub fn split(
        self,
        alloc: Global,
    ) -> Result<(Judge<A, B>, Judge<A, B>), (SplitFault, Judge<A, B>)>
        ensures split { IfOk result (λ r. AreSplitJudges (layout_of ⟦<A as Shape>⟧ ⟦<B as Shape>⟧) self r.0 r.1) }
        ensures refused { IfErr result (λ r. IsSplitJudgeRefused (layout_of ⟦<A as Shape>⟧ ⟦<B as Shape>⟧) r.0 self r.1) }
    {
        let Judge {
            filter,
            tables,
            callers,
            counts,
        } = self;
        let Ok(other_filter) = Arc::try_clone(&filter) else {
            return Err((
                SplitFault::Memory,
                Judge {
                    filter,
                    tables,
                    callers,
                    counts,
                },
            ));
        };
        let (tables, other_tables) = match tables.divide(alloc) {
            Ok(shares) => shares,
            Err(tables) => {
                return Err((
                    SplitFault::Memory,
                    Judge {
                        filter,
                        tables,
                        callers,
                        counts,
                    },
                ));
            }
        };
        match split_callers(alloc, tables.tables(), callers) {
            Ok((callers, other_callers)) => Ok((
                Judge {
                    filter,
                    tables,
                    callers,
                    counts,
                },
                Judge {
                    filter: other_filter,
                    tables: other_tables,
                    callers: other_callers,
                    counts: Counts::none(),
                },
            )),
            Err((fault, callers)) => Err((
                fault,
                Judge {
                    filter,
                    tables,
                    callers,
                    counts,
                },
            )),
        }
    }

    /// The judge, which has the numbers and records of the other one's callers then, and counts its packets too.
    pub fn join(self, other: Judge<A, B>) -> Judge<A, B>
        requires { AreOfOneTable self other }
        ensures { IsJoinedJudge (layout_of ⟦<A as Shape>⟧ ⟦<B as Shape>⟧) self other result }
    {
        let Judge {
            filter,
            tables,
            callers,
            counts,
        } = self;
        let callers = join_callers(tables.tables(), callers, other.callers);
        Judge {
            filter,
            tables,
            callers,
            counts: counts.with(other.counts),
        }
    }
}
