//! A filter that is ready at each interface.
ghost use Rattle.std.specs.Prelude.{◌≡◌};
ghost use Rattle.acl_policy.specs.Policies.{policy_facts, rules_of};
ghost use Rattle.flow_filter.specs.Filters.{section_in};
ghost use Rattle.flow_filter.specs.InterfaceFilters.{AreReady};
ghost use Rattle.flow_filter.specs.Rulesets.{rules_in};

use crate::ruleset::Ruleset;
use acl_policy::Policy;
use packet_view::{Direction, Mac};
use session_state::Timeouts;

/// A filter at hand for the packets of one interface: its rules are ready to be searched.
#[derive(Clone, Copy)]
pub struct InterfaceFilter<'a> {
    /// The number of the interface.
    pub interface: u8,
    /// Its own address.
    pub own: Option<Mac>,
    pub inbound: Ruleset<'a>,
    pub outbound: Ruleset<'a>,
    pub times: Timeouts,
}

impl<'a> InterfaceFilter<'a> {
    /// The filter's rules for packets of this direction.
    pub fn rules_of(&self, direction: Direction) -> Ruleset<'a>
        ensures { rules_in result ≡ rules_of direction (section_in self.now) }
    {
        match direction {
            Direction::Inbound => self.inbound,
            Direction::Outbound => self.outbound,
        }
    }
}

/// A filter that is ready at each interface, so that no packet searches for its section.
#[derive(Drop)]
pub struct InterfaceFilters<'a> {
    pub policy: &'a Policy,
    pub times: Timeouts,
    /// One for each number of an interface.
    pub places: Vec<InterfaceFilter<'a>>,
    pub ghost all: { AreReady (policy_facts policy.now) times places.items },
}

impl<'a> InterfaceFilters<'a> {
    ghost use Rattle.acl_policy.specs.Policies.{policy_facts};
    ghost use Rattle.flow_filter.specs.InterfaceFilters.{IsReadyAt};

    /// The filter at an interface, by its section of the policy.
    #[inline(always)]
    pub fn at(&self, interface: u8) -> &InterfaceFilter<'a>
        ensures { IsReadyAt (policy_facts self.now.policy.now) self.now.times interface result.now }
    {
        &self.places[usize::from(interface)]
    }
}
