//! The sections of a policy.
ghost use Rattle.std.specs.Prelude.{◌≡◌, map};
ghost use Rattle.acl_policy.specs.Policies.{empty_section, numbers_of, section_facts};
ghost use Rattle.acl_policy.specs.inner.Reading.Policies.{is_among};

use crate::policy::{Policy, Section};
use std::alloc::Global;

/// The section of an interface of which nothing is said.
pub fn empty(alloc: Global, interface: u8) -> Section
    ensures { section_facts result ≡ empty_section interface }
{
    Section {
        interface,
        own: None,
        inbound: Vec::new(alloc),
        outbound: Vec::new(alloc),
    }
}

/// Whether one of the sections that were read of a policy is of this interface.
pub fn has_section(sections: &[Section], interface: u8) -> bool
    ensures { result ≡ is_among interface (numbers_of (map section_facts sections.now)) }
{
    let mut rest = sections;
    'sections: while !rest.is_empty() {
        if interface == rest[0].interface {
            return true;
        }
        rest = &rest[1..];
    }
    false
}

impl Policy {
    ghost use Rattle.std.specs.Prelude.{◌≡◌, option_map};
    ghost use Rattle.acl_policy.specs.Policies.{find_section, policy_facts, section_facts};

    /// The section of the interface with this number. `None`: it has none, and so no own address and no rules.
    pub fn section(&self, interface: u8) -> Option<&Section>
        ensures { option_map (λ s. section_facts s.now) result
            ≡ find_section interface (policy_facts self.now).sections }
    {
        let mut rest = self.sections.as_slice();
        'sections: while !rest.is_empty() {
            if rest[0].interface == interface {
                return Some(&rest[0]);
            }
            rest = &rest[1..];
        }
        None
    }
}
