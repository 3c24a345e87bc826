//! A filter made ready.
ghost use Rattle.std.specs.Prelude.{◌≡◌, [], IfOk, map};
ghost use Rattle.std.specs.List.{AllZip};
ghost use Rattle.acl_policy.specs.Policies.{empty_section, section_among, section_facts};
ghost use Rattle.flow_filter.specs.Filters.{section_in};
ghost use Rattle.flow_filter.specs.RuleIndexes.{ArePrepared};
ghost use Rattle.flow_filter.specs.Rulesets.{rules_in};

use crate::interface_filters::{InterfaceFilter, InterfaceFilters};
use crate::prepared_filter::Filter;
use crate::rule_indexes::{RuleIndexes, index_of, rules_with_index};
use crate::ruleset::{RuleSearch, Ruleset};
use acl_policy::Section;
use session_state::Timeouts;
use std::alloc::{AllocError, Global};

// The rules with which a filter is made ready for an interface without a section: none.
fn empty_ready_ruleset<'a>() -> Ruleset<'a>
    ensures { rules_in result ≡ [] }
{
    Ruleset {
        search: RuleSearch::Listed(&[]),
    }
}

// The filter at an interface that has no section in the policy.
fn unruled<'a>(interface: u8, times: Timeouts) -> InterfaceFilter<'a>
    ensures section { section_in result ≡ empty_section interface }
    ensures times { result.times ≡ times }
{
    InterfaceFilter {
        interface,
        own: None,
        inbound: empty_ready_ruleset(),
        outbound: empty_ready_ruleset(),
        times,
    }
}

// The filter at a section's interface, whose rules are searched one after the other.
fn listed(section: &Section, times: Timeouts) -> InterfaceFilter<'_>
    ensures section { section_in result ≡ section_facts section.now }
    ensures times { result.times ≡ times }
{
    InterfaceFilter {
        interface: section.interface,
        own: section.own,
        inbound: Ruleset {
            search: RuleSearch::Listed(&section.inbound),
        },
        outbound: Ruleset {
            search: RuleSearch::Listed(&section.outbound),
        },
        times,
    }
}

// The filter at a section's interface, whose rules are searched as they were prepared.
fn indexed<'a>(
    section: &'a Section,
    prepared: &'a RuleIndexes,
    times: Timeouts,
) -> InterfaceFilter<'a>
    requires { ArePrepared section.now prepared.now }
    ensures section { section_in result ≡ section_facts section.now }
    ensures times { result.times ≡ times }
{
    InterfaceFilter {
        interface: section.interface,
        own: section.own,
        inbound: rules_with_index(&section.inbound, &prepared.inbound),
        outbound: rules_with_index(&section.outbound, &prepared.outbound),
        times,
    }
}

// The rules that the filter of a section searches, prepared for this many packets where that pays.
fn prepare_section(
    alloc: Global,
    section: &Section,
    packets: usize,
) -> Result<RuleIndexes, AllocError>
    ensures { IfOk result (ArePrepared section.now) }
{
    let inbound = index_of(alloc, &section.inbound, packets)?;
    let outbound = index_of(alloc, &section.outbound, packets)?;
    Ok(RuleIndexes { inbound, outbound })
}

/// The filter at an interface, by the first of these sections that is of it.
pub fn ready_at<'a>(
    sections: &'a [Section],
    prepared: &'a [RuleIndexes],
    interface: u8,
    times: Timeouts,
) -> InterfaceFilter<'a>
    requires { AllZip ArePrepared sections.now prepared.now }
    ensures section { section_in result ≡ section_among interface (map section_facts sections.now) }
    ensures times { result.times ≡ times }
{
    let mut rest = sections;
    let mut left = prepared;
    'sections: while !rest.is_empty() {
        if rest[0].interface == interface {
            return indexed(&rest[0], &left[0], times);
        }
        rest = &rest[1..];
        left = &left[1..];
    }
    unruled(interface, times)
}

impl Filter {
    ghost use Rattle.std.specs.Prelude.{◌≡◌, IfOk};
    ghost use Rattle.std.specs.List.{AllZip};
    ghost use Rattle.acl_policy.specs.Policies.{policy_facts, section_of};
    ghost use Rattle.flow_filter.specs.Filters.{section_in};
    ghost use Rattle.flow_filter.specs.RuleIndexes.{ArePrepared};

    /// The filter at an interface, by its section of the policy, whose rules are searched one after the other.
    pub fn ready(&self, interface: u8) -> InterfaceFilter<'_>
        ensures section { section_in result ≡ section_of interface (policy_facts self.now.policy) }
        ensures times { result.times ≡ self.now.times }
    {
        match self.policy.section(interface) {
            Some(section) => listed(section, self.times),
            None => unruled(interface, self.times),
        }
    }

    /// The rules that the filter of each section searches, prepared for this many packets where that pays.
    pub fn prepare(&self, alloc: Global, packets: usize) -> Result<Vec<RuleIndexes>, AllocError>
        ensures { IfOk result (λ all. AllZip ArePrepared self.now.policy.sections.items all.items) }
    {
        let mut all = Vec::with_capacity(alloc, self.policy.sections.len())?;
        for section in &self.policy.sections {
            all.push(prepare_section(alloc, section, packets)?)?;
        }
        Ok(all)
    }

    /// The filter at every interface, by its section of the policy, whose rules are searched as they were prepared.
    pub fn ready_with<'a>(
        &'a self,
        alloc: Global,
        prepared: &'a [RuleIndexes],
    ) -> Result<InterfaceFilters<'a>, AllocError>
        requires { AllZip ArePrepared self.now.policy.sections.items prepared.now }
        ensures policy { IfOk result (λ r. r.policy.now ≡ self.now.policy) }
        ensures times { IfOk result (λ r. r.times ≡ self.now.times) }
    {
        let mut places = Vec::with_capacity(alloc, 256)?;
        for number in 0..256usize {
            places.push(ready_at(&self.policy.sections, prepared, number as u8, self.times))?;
        }
        Ok(InterfaceFilters {
            policy: &self.policy,
            times: self.times,
            places,
        })
    }
}
