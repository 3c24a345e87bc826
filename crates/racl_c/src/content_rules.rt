//! What is behind a handle: counts by rule.
ghost use Rattle.std.specs.Prelude.{◌≢◌, ◌≡◌, IfErr, IfOk};
ghost use Rattle.acl_policy.specs.Policies.{IsPolicyFault};
ghost use Rattle.acl_policy.specs.declared.policy.PolicyFault.TheVariants.{Memory};
ghost use Rattle.racl_c.specs.RuleCounts.{CountsNothing, HasRules, RuleCountTold, RuleCounted};
ghost use Rattle.racl_c.specs.RuleCounts as numbers;

use crate::content_calls::Content;
use acl_policy::{PolicyFault, read_policy};
use flow_judge::RuleCounts;
use packet_view::Direction;
use std::alloc::Global;

/// The direction with this number.
pub fn direction_of(number: u32) -> Option<Direction>
    ensures { result ≡ numbers.direction_of number }
{
    match number {
        1 => Some(Direction::Inbound),
        2 => Some(Direction::Outbound),
        _ => None,
    }
}

impl Content {
    /// Counts of no packet, for the rules of the policy of this text.
    pub fn new_counts(alloc: Global, text: &[u8]) -> Result<Content, PolicyFault>
        ensures made { IfOk result (CountsNothing text.now) }
        ensures fault { IfErr result (λ fault. fault ≢ Memory → IsPolicyFault text.now fault) }
    {
        let policy = read_policy(alloc, text)?;
        match RuleCounts::of(alloc, &policy) {
            Ok(counts) => Ok(Content::Rules(counts)),
            Err(_) => Err(PolicyFault::Memory),
        }
    }

    /// Counts a packet that was seen at this interface, and decided by this rule of the direction with this number.
    pub fn count_rule(&mut self, interface: u8, direction: u32, rule: u32)
        requires { HasRules self.old }
        ensures { RuleCounted interface (numbers.direction_of direction) rule self.old self.new }
    {
        let Content::Rules(counts) = self else {
            unreachable!();
        };
        if let Some(direction) = direction_of(direction) {
            counts.count(interface, direction, rule);
        }
    }

    /// How many packets this rule of the direction with this number decided.
    pub fn rule_count(&self, interface: u8, direction: u32, rule: u32) -> u64
        requires { HasRules self.now }
        ensures { RuleCountTold interface (numbers.direction_of direction) rule self.now result }
    {
        let Content::Rules(counts) = self else {
            unreachable!();
        };
        match direction_of(direction) {
            Some(direction) => counts.at(interface, direction, rule),
            None => 0,
        }
    }
}
