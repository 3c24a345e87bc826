//! Why a table doesn't end of which another judge may have a share.
ghost use Rattle.flow_judge.specs.EndFaults.{AreHeld};

use crate::end_fault::EndFault;
use crate::judge::Judge;
use bihash_words::Shape;
use packet_view::Family;

impl<A: Shape, B: Shape> Judge<A, B> {
    /// Why this family's table of a judge doesn't end that doesn't have it for itself, by what its caller says.
    pub(crate) fn held(mut self, family: Family) -> (EndFault, Judge<A, B>)
        ensures { AreHeld ⟦<A as Shape>⟧ ⟦<B as Shape>⟧ family self result.0 result.1 }
    {
        let tables = self.tables.tables();
        let is_lone = match family {
            Family::V4 => tables.four.is_lone(&mut self.callers.four),
            Family::V6 => tables.six.is_lone(&mut self.callers.six),
        };
        if is_lone {
            (EndFault::Contended, self)
        } else {
            (EndFault::Strangers, self)
        }
    }
}
