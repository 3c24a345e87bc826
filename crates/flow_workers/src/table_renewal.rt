//! One family's table that is opened again.
ghost use Rattle.std.specs.Prelude.{◌≡◌, IfOk, IfErr};
ghost use Rattle.flow_workers.specs.Callers.{AreIdle};
ghost use Rattle.flow_workers.specs.Renewals.{AreNotRenewed, AreRenewed};

use crate::session_tables::{Callers, Tables};
use bihash_table::RenewFault;
use bihash_words::Shape;
use packet_view::Family;
use std::alloc::Global;

/// The tables, where that of this family begins anew with the pairs that it had, and its callers. The other family's
/// table and caller are as they were. `Strangers`: some caller of the family's table wasn't joined into this one.
/// `Memory`: memory was refused. Refused, the tables and their callers come back.
pub fn renew_tables<A: Shape, B: Shape>(
    alloc: Global,
    tables: Tables<A, B>,
    callers: Callers<A, B>,
    family: Family,
) -> Result<(Tables<A, B>, Callers<A, B>), (RenewFault, Tables<A, B>, Callers<A, B>)>
    requires { AreIdle ⟦<A as Shape>⟧ ⟦<B as Shape>⟧ tables callers }
    ensures idle { IfOk result (λ r. AreIdle ⟦<A as Shape>⟧ ⟦<B as Shape>⟧ r.0 r.1) }
    ensures renewed { IfOk result (λ r. AreRenewed ⟦<A as Shape>⟧ ⟦<B as Shape>⟧ family tables r.0 callers r.1) }
    ensures cuts { IfOk result (λ r. (r.0.four.cuts_blocks ≡ tables.four.cuts_blocks) × (r.0.six.cuts_blocks ≡ tables.six.cuts_blocks)) }
    ensures kept { IfErr result (λ r. AreIdle ⟦<A as Shape>⟧ ⟦<B as Shape>⟧ r.1 r.2) }
    ensures refused { IfErr result (λ r. AreNotRenewed ⟦<A as Shape>⟧ ⟦<B as Shape>⟧ family tables r.1 callers r.2 r.0) }
    ensures back { IfErr result (λ r. (r.1.four.cuts_blocks ≡ tables.four.cuts_blocks) × (r.1.six.cuts_blocks ≡ tables.six.cuts_blocks)) }
{
    let Tables { four, six } = tables;
    let Callers {
        four: caller_four,
        six: caller_six,
    } = callers;
    match family {
        Family::V4 => match four.renew(alloc, caller_four) {
            Ok((four, first)) => Ok((
                Tables { four, six },
                Callers {
                    four: first,
                    six: caller_six,
                },
            )),
            Err((fault, four, caller)) => Err((
                fault,
                Tables { four, six },
                Callers {
                    four: caller,
                    six: caller_six,
                },
            )),
        },
        Family::V6 => match six.renew(alloc, caller_six) {
            Ok((six, first)) => Ok((
                Tables { four, six },
                Callers {
                    four: caller_four,
                    six: first,
                },
            )),
            Err((fault, six, caller)) => Err((
                fault,
                Tables { four, six },
                Callers {
                    four: caller_four,
                    six: caller,
                },
            )),
        },
    }
}
