//! The ends of a table: its pairs, or a table of its own that begins with them.
ghost use Rattle.std.specs.Prelude.{IfOk, IfErr};
ghost use Rattle.bihash_words.specs.Sizes.{sizes_of};
ghost use Rattle.bihash_c.specs.CallersWithTable.{IsClosed, IsEndTold, IsRenewedFrom};

use crate::caller_with_table::CallerWithTable;
use crate::end_of_table::{EndFault, end_of_close, end_of_renewal};
use crate::table_share::TableShare;
use bihash_words::Shape;
use std::alloc::Global;

impl<S: Shape> CallerWithTable<S> {
    /// Ends a caller with its table, and gives the table's pairs, sorted by the words of their keys.
    pub fn close(self, alloc: Global) -> Result<Vec<(S::Key, u64)>, (EndFault, CallerWithTable<S>)>
        ensures closed { IfOk result (λ ps. IsClosed ⟦<S as Shape>⟧ self.view ps.items) }
        ensures refused { IfErr result (λ r. IsEndTold (sizes_of S.Shape) self r.0 r.1) }
    {
        let CallerWithTable { share, caller } = self;
        let sessions = match share.into_own() {
            Ok(sessions) => sessions,
            Err(share) => return Err(CallerWithTable { share, caller }.refused()),
        };
        match sessions.close(alloc, caller) {
            Ok(pairs) => Ok(pairs),
            Err((fault, sessions, caller)) => Err((
                end_of_close(fault),
                CallerWithTable {
                    share: TableShare::Own(sessions),
                    caller,
                },
            )),
        }
    }

    /// Ends a caller with its table, and gives caller 1 of a table of its own that begins with the pairs.
    pub fn renew(self, alloc: Global) -> Result<CallerWithTable<S>, (EndFault, CallerWithTable<S>)>
        ensures renewed { IfOk result (λ r. IsRenewedFrom (sizes_of S.Shape) self.view r.view) }
        ensures refused { IfErr result (λ r. IsEndTold (sizes_of S.Shape) self r.0 r.1) }
    {
        let CallerWithTable { share, caller } = self;
        let sessions = match share.into_own() {
            Ok(sessions) => sessions,
            Err(share) => return Err(CallerWithTable { share, caller }.refused()),
        };
        match sessions.renew(alloc, caller) {
            Ok((sessions, caller)) => Ok(CallerWithTable {
                share: TableShare::Own(sessions),
                caller,
            }),
            Err((fault, sessions, caller)) => Err((
                end_of_renewal(fault),
                CallerWithTable {
                    share: TableShare::Own(sessions),
                    caller,
                },
            )),
        }
    }

    // Why the table of a caller that others have a share of does not end.
    fn refused(mut self) -> (EndFault, CallerWithTable<S>)
        ensures { IsEndTold (sizes_of S.Shape) self result.0 result.1 }
    {
        let fault = if self.is_lone() {
            EndFault::Contended
        } else {
            EndFault::Strangers
        };
        (fault, self)
    }
}
