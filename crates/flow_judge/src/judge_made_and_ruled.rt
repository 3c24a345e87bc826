//! A judge made, and its policy replaced.
ghost use Rattle.std.specs.Prelude.{◌≡◌, ◌≢◌, ◌↔◌, IfOk, IfErr, IsTrue};
ghost use Rattle.acl_policy.specs.Policies.{IsPolicyFault};
ghost use Rattle.acl_policy.specs.declared.policy.PolicyFault.TheVariants.{Memory};
ghost use Rattle.flow_filter.specs.OneThread.{layout_of};
ghost use Rattle.flow_workers.specs.Callers.{AreShapes};
ghost use Rattle.flow_judge.specs.Judges.{IsNewJudge, IsRuledAnew, IsRuledAs, IsTakeRefused};

use crate::counts::Counts;
use crate::judge::Judge;
use crate::tables_share::TablesShare;
use crate::take_fault::TakeFault;
use acl_policy::{PolicyFault, read_policy};
use bihash_words::Shape;
use flow_filter::{Filter, PreparedFilter};
use flow_workers::create_cutting_tables;
use session_state::Timeouts;
use std::alloc::Global;
use std::sync::Arc;

// Whether these are the same timeouts.
fn same_times(one: Timeouts, other: Timeouts) -> bool
    ensures { IsTrue result ↔ one ≡ other }
{
    one.established == other.established
        && (one.transient == other.transient && one.udp == other.udp)
}

impl<A: Shape, B: Shape> Judge<A, B> {
    /// A judge of new session tables, by the policy that the text says. A fault other than `Memory` is the text's first.
    pub fn new(alloc: Global, text: &[u8], times: Timeouts) -> Result<Judge<A, B>, PolicyFault>
        requires { AreShapes ⟦<A as Shape>⟧ ⟦<B as Shape>⟧ }
        ensures made { IfOk result (IsNewJudge (layout_of ⟦<A as Shape>⟧ ⟦<B as Shape>⟧) text.now times) }
        ensures fault { IfErr result (λ fault. fault ≢ Memory → IsPolicyFault text.now fault) }
    {
        let policy = read_policy(alloc, text)?;
        let Ok(filter) = PreparedFilter::new(alloc, Filter { policy, times }) else {
            return Err(PolicyFault::Memory);
        };
        let Ok(filter) = Arc::new(alloc, filter) else {
            return Err(PolicyFault::Memory);
        };
        let Ok((tables, callers)) = create_cutting_tables(alloc) else {
            return Err(PolicyFault::Memory);
        };
        Ok(Judge {
            filter,
            tables: TablesShare::Own(tables),
            callers,
            counts: Counts::none(),
        })
    }

    /// Judges by the policy of this text from now on. Sessions stay. Refused, the judge keeps its policy.
    pub fn set_policy(&mut self, alloc: Global, text: &[u8]) -> Result<(), PolicyFault>
        ensures ruled { IfOk result (λ _. IsRuledAnew text.now self.old self.new) }
        ensures fault { IfErr result (λ fault. fault ≢ Memory → IsPolicyFault text.now fault) }
        ensures kept { IfErr result (λ _. self.new ≡ self.old) }
    {
        let policy = read_policy(alloc, text)?;
        let times = self.filter.times();
        let Ok(filter) = PreparedFilter::new(alloc, Filter { policy, times }) else {
            return Err(PolicyFault::Memory);
        };
        let Ok(filter) = Arc::new(alloc, filter) else {
            return Err(PolicyFault::Memory);
        };
        self.filter = filter;
        Ok(())
    }

    /// Judges by the other one's policy from now on, and by its timeouts, which must be the judge's own already unless the judge
    /// is alone over its tables: judges over the same tables have the same. Sessions stay. Refused, the judge keeps its own.
    pub fn take_policy<C: Shape, D: Shape>(&mut self, other: &Judge<C, D>) -> Result<(), TakeFault>
        ensures ruled { IfOk result (λ _. IsRuledAs (layout_of ⟦<A as Shape>⟧ ⟦<B as Shape>⟧) other.now self.old self.new) }
        ensures kept { IfErr result (λ fault. IsTakeRefused (layout_of ⟦<A as Shape>⟧ ⟦<B as Shape>⟧) other.now self.old fault self.new) }
    {
        let Ok(filter) = Arc::try_clone(&other.filter) else {
            return Err(TakeFault::Memory);
        };
        if same_times(other.times(), self.times()) {
            self.filter = filter;
            return Ok(());
        }
        if self.is_lone() {
            self.filter = filter;
            return Ok(());
        }
        Err(TakeFault::Strangers)
    }

    /// How many packets the judge gave each kind of verdict, those of judges that were joined into it too.
    pub fn counts(&self) -> Counts
        ensures { result ≡ self.now.counts }
    {
        self.counts
    }

    /// How long sessions live by which the judge judges.
    pub fn times(&self) -> Timeouts
        ensures { result ≡ self.now.times }
    {
        self.filter.times()
    }
}
