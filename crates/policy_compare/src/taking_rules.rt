//! Rules that take all packets of another, before which alone a rule can decide the same packets.
ghost use Rattle.std.specs.Prelude.{◌≡◌, ◌≤◌, IfOk, length, map, option_map};
ghost use Rattle.acl_policy.specs.Rules.{rule_facts};
ghost use Rattle.policy_compare.specs.inner.Limits.{AreLimits, AreLimitsOf, IsLimit};
ghost use Rattle.policy_compare.specs.inner.Found.{sides_facts};

use crate::decider::rule_at;
use acl_policy::Rule;
use packet_view::Direction;
use policy_check::takes_all;
use std::alloc::{AllocError, Global};

/// The rules for packets of a direction at an interface by a policy, and by the one that is to take its place.
#[derive(Clone, Copy)]
pub struct Sides<'a> {
    pub interface: u8,
    pub direction: Direction,
    pub before: &'a [Rule],
    pub after: &'a [Rule],
}

/// Of each rule of the one list, and of no rule, the first place of the other whose rule takes all its packets, or that behind
/// the last; and the other way round.
#[derive(Drop)]
pub struct Limits {
    pub rows: Vec<usize>,
    pub columns: Vec<usize>,
}

// The place of the first rule that takes all packets of this one, or of all packets; how many rules there are, where none does.
#[tactic(auto, using(crate::proofs::LimitLemmas::limit_at_end))]
fn limit_of(rules: &[Rule], taken: Option<Rule>) -> usize
    ensures { IsLimit (map rule_facts rules.now) (option_map rule_facts taken) result }
{
    let Some(taken) = taken else {
        return rules.len();
    };
    for place in 0..rules.len() {
        if takes_all(&rules[place], &taken) {
            return place;
        }
    }
    rules.len()
}

// Of each place of one list, and of the one behind its end, that place of another.
fn limits_of(alloc: Global, rules: &[Rule], taken: &[Rule]) -> Result<Vec<usize>, AllocError>
    ensures { IfOk result (λ limits. AreLimitsOf (map rule_facts rules.now) (map rule_facts taken.now) limits.items) }
{
    let mut limits = Vec::new(alloc);
    for place in 0..taken.len() + 1 {
        limits.push(limit_of(rules, rule_at(taken, place)))?;
    }
    Ok(limits)
}

/// These places of both lists.
pub fn limits_between(alloc: Global, sides: &Sides<'_>) -> Result<Limits, AllocError>
    ensures { IfOk result (AreLimits (sides_facts sides.now)) }
{
    let rows = limits_of(alloc, sides.after, sides.before)?;
    let columns = limits_of(alloc, sides.before, sides.after)?;
    Ok(Limits { rows, columns })
}
