//! Workers that judge packets, and keep no verdict.
ghost use Rattle.flow_workers.specs.Callers.{AreIdle};
ghost use Rattle.flow_workers.specs.inner.LettingGo.{HasLetGo};

use crate::gate::Gate;
use crate::session_tables::Tables;
use crate::worker_callers::wait_until_lone;
use crate::worker_share::Share;
use crate::workers::Workers;
use bihash_words::Shape;
use session_state::Verdict;
use std::alloc::Global;
use std::mem::replace;
use std::sync::Wait;

// What the only worker said, which is kept in its share no longer. It waits until it has every number that was made.
fn let_go<A: Shape, B: Shape, R: Wait>(
    rt: &R,
    alloc: Global,
    tables: &Tables<A, B>,
    share: &mut Share<A, B>,
) -> Vec<Verdict>
    requires { AreIdle ⟦<A as Shape>⟧ ⟦<B as Shape>⟧ tables.now share.old.callers }
    ensures { HasLetGo ⟦<A as Shape>⟧ ⟦<B as Shape>⟧ tables.now share.old share.new result.items }
{
    wait_until_lone(rt, &tables.four, &mut share.callers.four);
    wait_until_lone(rt, &tables.six, &mut share.callers.six);
    replace(&mut share.said, Vec::new(alloc))
}

impl<'t, 'f, A: Shape, B: Shape, R: Wait, G: Gate> Workers<'t, 'f, A, B, R, G> {
    ghost use Rattle.flow_workers.specs.Progress.{CanEnd, HaveHandedOver};

    /// What they said of the packets that they judged and didn't hand over before, in the packets' order. They keep it no
    /// longer.
    pub fn hand_over(&mut self, alloc: Global) -> Vec<Verdict>
        requires { CanEnd self.old }
        ensures { HaveHandedOver self.old self.new result.items }
    {
        if self.setup.is_alone() {
            return let_go(self.setup.rt, alloc, self.setup.tables, &mut self.shares[0]);
        }
        replace(&mut self.verdicts, Vec::new(alloc))
    }
}
