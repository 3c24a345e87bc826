//! A judge whose table of one family is opened again.
ghost use Rattle.std.specs.Prelude.{IfOk, IfErr};
ghost use Rattle.flow_judge.specs.Renewals.{IsRenewedJudge, IsRenewRefusedJudge};

use crate::end_fault::{EndFault, end_of_renewal};
use crate::judge::Judge;
use crate::tables_share::TablesShare;
use bihash_words::Shape;
use flow_workers::renew_tables;
use packet_view::Family;
use std::alloc::Global;

impl<A: Shape, B: Shape> Judge<A, B> {
    /// The judge, where this family's table begins anew with the sessions that it had. Refused, the judge comes back.
    pub fn renew(
        self,
        alloc: Global,
        family: Family,
    ) -> Result<Judge<A, B>, (EndFault, Judge<A, B>)>
        ensures renewed { IfOk result (λ r. IsRenewedJudge ⟦<A as Shape>⟧ ⟦<B as Shape>⟧ family self r) }
        ensures refused { IfErr result (λ r. IsRenewRefusedJudge ⟦<A as Shape>⟧ ⟦<B as Shape>⟧ family self r.0 r.1) }
    {
        let (filter, tables, callers, counts) = match self.into_parts() {
            Ok(parts) => parts,
            Err(judge) => return Err(judge.held(family)),
        };
        match renew_tables(alloc, tables, callers, family) {
            Ok((tables, callers)) => Ok(Judge {
                filter,
                tables: TablesShare::Own(tables),
                callers,
                counts,
            }),
            Err((fault, tables, callers)) => Err((
                end_of_renewal(fault),
                Judge {
                    filter,
                    tables: TablesShare::Own(tables),
                    callers,
                    counts,
                },
            )),
        }
    }
}
