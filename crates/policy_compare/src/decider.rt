//! What decides a packet by a list of rules.
ghost use Rattle.std.specs.Prelude.{◌≡◌, map, option_map, slice_get};
ghost use Rattle.acl_policy.specs.Rules.{rule_facts};
ghost use Rattle.policy_compare.specs.Comparisons;

use acl_policy::{Action, Rule};

/// The rule at this place, from 0; None behind the last.
pub fn rule_at(rules: &[Rule], place: usize) -> Option<Rule>
    ensures { option_map rule_facts result ≡ slice_get (map rule_facts rules.now) place }
{
    if place < rules.len() {
        Some(rules[place])
    } else {
        None
    }
}

/// What decides the packets that the rule at this place matches, and none before it.
pub fn decider_at(rules: &[Rule], place: usize) -> Option<(u64, Action)>
    ensures { result ≡ Comparisons.decider_at (map rule_facts rules.now) place }
{
    if place < rules.len() {
        Some((place as u64 + 1, rules[place].action))
    } else {
        None
    }
}

/// What becomes of a packet that this decides.
pub fn action_by(decider: Option<(u64, Action)>) -> Action
    ensures { result ≡ Comparisons.action_by decider }
{
    match decider {
        Some((_, action)) => action,
        None => Action::Deny,
    }
}
