//! A filter, and one whose rules were prepared, which is made ready for one packet at a time.
ghost use Rattle.std.specs.Prelude.{◌≡◌, IfOk};
ghost use Rattle.std.specs.List.{AllZip};
ghost use Rattle.acl_policy.specs.Policies.{policy_facts};
ghost use Rattle.flow_filter.specs.InterfaceFilters.{IsReadyAt};
ghost use Rattle.flow_filter.specs.RuleIndexes.{ArePrepared};
ghost use Rattle.flow_filter.specs.declared.prepared_filter.Filter.{Filter};

use crate::filters_made_ready::ready_at;
use crate::interface_filters::InterfaceFilter;
use crate::rule_indexes::RuleIndexes;
use acl_policy::Policy;
use session_state::Timeouts;
use std::alloc::{AllocError, Global};
use std::marker::Model;

/// The rules, and how long sessions live.
#[derive(Drop)]
pub struct Filter {
    pub policy: Policy,
    pub times: Timeouts,
}

/// A filter, and the rules that it searches as they were prepared. Contracts see the filter.
#[derive(Drop)]
pub struct PreparedFilter {
    filter: Filter,
    prepared: Vec<RuleIndexes>,
}

impl Model for PreparedFilter {
    ghost Value = { Filter };

    ghost view = { λ p. p.filter };

    ghost invariant = { λ p. AllZip ArePrepared p.filter.policy.sections.items p.prepared.items };
}

impl PreparedFilter {
    /// The filter with its rules prepared, wherever that pays for many packets.
    pub fn new(alloc: Global, filter: Filter) -> Result<PreparedFilter, AllocError>
        ensures { IfOk result (λ r. r ≡ filter) }
    {
        let prepared = filter.prepare(alloc, usize::MAX)?;
        Ok(PreparedFilter { filter, prepared })
    }

    /// How long sessions live.
    pub fn times(&self) -> Timeouts
        ensures { result ≡ self.now.times }
    {
        self.filter.times
    }

    /// The filter at an interface, by its section of the policy.
    #[inline(always)]
    pub fn at(&self, interface: u8) -> InterfaceFilter<'_>
        ensures { IsReadyAt (policy_facts self.now.policy) self.now.times interface result }
    {
        ready_at(
            &self.filter.policy.sections,
            &self.prepared,
            interface,
            self.filter.times,
        )
    }
}
