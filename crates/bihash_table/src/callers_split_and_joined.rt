//! The callers of a table: split, told of one another, joined into one, and asked for their stamp.
ghost use Rattle.std.specs.Prelude.{◌≡◌, ◌<◌, ◌≤◌, ℕ, IfOk, IfErr};
ghost use Rattle.bihash_words.specs.Sizes.{sizes_of};
ghost use Rattle.bihash_steps.specs.CallerCalls.{AreIdle, AreInformed, IsIdle, IsJoined};
ghost use Rattle.bihash_rule.specs.Callers.{IsLawfulCaller, Agrees};
ghost use Rattle.bihash_steps.specs.Steps.{parent, newcomer, IsRefused};
ghost use Rattle.bihash_steps.specs.Seats.{with_view, stamp_of};
ghost use Rattle.bihash_table.specs.Calls.{TellsLone};

use crate::shared_table::Sessions;
use bihash_steps::{Caller, SplitFault};
use bihash_words::Shape;
use std::alloc::Global;

/// Of a table's caller, split and joined or not: the bucket and the stamp of the last answered call under its acting
/// number, refusals other than Contended included. `None` before the first.
pub fn stamp<S: Shape>(caller: &Caller<S>) -> Option<(u64, u64)>
    ensures { result ≡ stamp_of caller.now.seat.view.records }
{
    caller.seat.stamp()
}

impl<S: Shape> Sessions<S> {
    /// The caller, and a new one that knows the same and has a number of its own without calls.
    /// `Numbers`: as many callers were made as there may be. `Contended`: another caller took a number
    /// in the same moment.
    pub fn split(
        &self,
        alloc: Global,
        caller: Caller<S>,
    ) -> Result<(Caller<S>, Caller<S>), (SplitFault, Caller<S>)>
        requires { IsIdle self.now.row caller.seat }
        ensures split { IfOk result (λ r. (count : ℕ) × (caller.seat.view.seen ≤ count) × (count < S.CALLERS)
            × (r.0.seat ≡ with_view caller.seat (parent caller.seat.view count))
            × (r.1.seat.row ≡ caller.seat.row) × (r.1.seat.view ≡ newcomer caller.seat.view count)) }
        ensures lawful { IfOk result (λ r. IsLawfulCaller (sizes_of S.Shape) r.0.seat.view
            × IsLawfulCaller (sizes_of S.Shape) r.1.seat.view) }
        ensures agree { IfOk result (λ r. Agrees r.0.seat.view r.1.seat.view) }
        ensures refused { IfErr result (λ r. (r.1.seat ≡ with_view caller.seat r.1.seat.view)
            × IsRefused (sizes_of S.Shape) caller.seat.view r.0 r.1.seat.view) }
        ensures back { IfErr result (λ r. IsLawfulCaller (sizes_of S.Shape) caller.seat.view → IsLawfulCaller (sizes_of S.Shape) r.1.seat.view) }
    {
        self.row.split(alloc, caller)
    }

    /// Both callers with their numbers and records. Each knows afterwards what either knew.
    pub fn meet(&self, caller: Caller<S>, other: Caller<S>) -> (Caller<S>, Caller<S>)
        requires idle { AreIdle self.now.row caller.seat other.seat }
        ensures { AreInformed (sizes_of S.Shape) caller.seat other.seat result.0.seat result.1.seat }
    {
        self.row.meet(caller, other)
    }

    /// One caller with the numbers and records of both, each as it was. It knows what either knew, and
    /// acts under the first one's number.
    pub fn join(&self, caller: Caller<S>, other: Caller<S>) -> Caller<S>
        requires idle { AreIdle self.now.row caller.seat other.seat }
        ensures { IsJoined (sizes_of S.Shape) caller.seat other.seat result.seat }
    {
        self.row.join(caller, other)
    }

    /// Whether the caller has every number that was made, with all others joined into it. It is whole then, and lone
    /// until a split of it succeeds.
    pub fn is_lone(&self, caller: &mut Caller<S>) -> bool
        requires own { caller.old.seat.row ≡ self.now.row }
        ensures { TellsLone (sizes_of S.Shape) caller.old.seat caller.new.seat result }
    {
        self.row.load_count(&mut caller.seat) == caller.seat.numbers()
    }
}
