//! Packets that a rule of one list and a rule of another decide differently: both match them, or the one where there is no other,
//! and no rule before either does.
ghost use Rattle.std.specs.Prelude.{◌≡◌, ◌≢◌, ◌≤◌, ◌⊎◌, ◌++◌, List, IfOk, IfSome, None, Ok, Some, length, map, option_map};
ghost use Rattle.acl_policy.specs.Rules.{RuleFacts, rule_facts};
ghost use Rattle.acl_policy.specs.declared.rule.Action.TheVariants.{Deny};
ghost use Rattle.policy_compare.specs.declared.finding.Finding.TheVariants.{Unknown};
ghost use Rattle.policy_compare.specs.inner.Findings.{IsFinding, IsFree, IsFreeApart, action_of};
ghost use Rattle.policy_compare.specs.inner.Starting.{idle_rules};

use crate::finding::{Finding, finding_of};
use crate::starting_packets::{IDLE_RULES, left_of_starting};
use acl_policy::{Action, Rule};
use rule_cover::uncovered;
use std::alloc::{AllocError, Global};

// How many tests of a rule are spent on each pair, before those that all pairs share.
const TESTS_OF_A_PAIR: u64 = 65_536;

// A packet that both rules match, or the one where there is no other, and none of the earlier rules.
fn free_of_both(
    alloc: Global,
    tests: &mut u64,
    rules: (Option<Rule>, Option<Rule>),
    earlier: &[Rule],
) -> Result<Finding, AllocError>
    requires { action_of (option_map rule_facts rules.0) ≢ action_of (option_map rule_facts rules.1) }
    ensures found { IfOk result (IsFinding (IsFree (option_map rule_facts rules.0) (option_map rule_facts rules.1) (map rule_facts earlier.now))) }
    ensures fewer { tests.new ≤ tests.old }
    ensures unknown { result ≡ Ok Unknown → tests.new ≡ 0 }
{
    match rules {
        (Some(one), Some(two)) => Ok(finding_of(uncovered(alloc, tests, &one, &two, earlier)?)),
        (Some(one), None) => Ok(finding_of(uncovered(alloc, tests, &one, &one, earlier)?)),
        (None, Some(two)) => Ok(finding_of(uncovered(alloc, tests, &two, &two, earlier)?)),
        (None, None) => Ok(Finding::Nothing),
    }
}

// The rules, where there are both and both let packets through.
fn both_pass(rules: (Option<Rule>, Option<Rule>)) -> Option<(Rule, Rule)>
    ensures one { IfSome result (λ both. (rules.0 ≡ Some both.0) × (both.0.action ≢ Deny)) }
    ensures two { IfSome result (λ both. (rules.1 ≡ Some both.1) × (both.1.action ≢ Deny)) }
    ensures none { result ≡ None → (action_of (option_map rule_facts rules.0) ≡ Deny) ⊎ (action_of (option_map rule_facts rules.1) ≡ Deny) }
{
    let Some(first) = rules.0 else {
        return None;
    };
    let Some(second) = rules.1 else {
        return None;
    };
    if first.action == Action::Deny || second.action == Action::Deny {
        None
    } else {
        Some((first, second))
    }
}

// A packet that the rules decide differently, and that no earlier rule matches. `idle_rules` stand before the earlier ones.
fn apart_by(
    alloc: Global,
    tests: &mut u64,
    rules: (Option<Rule>, Option<Rule>),
    earlier: &[Rule],
) -> Result<Finding, AllocError>
    requires apart { action_of (option_map rule_facts rules.0) ≢ action_of (option_map rule_facts rules.1) }
    requires idle { 8 ≤ length earlier.now }
    ensures found { (rest : List RuleFacts) → map rule_facts earlier.now ≡ idle_rules ++ rest
        → IfOk result (IsFinding (IsFreeApart (option_map rule_facts rules.0) (option_map rule_facts rules.1) rest)) }
    ensures fewer { tests.new ≤ tests.old }
    ensures unknown { result ≡ Ok Unknown → tests.new ≡ 0 }
{
    match both_pass(rules) {
        Some((one, two)) => left_of_starting(alloc, tests, &one, &two, earlier),
        None => free_of_both(alloc, tests, rules, &earlier[IDLE_RULES..]),
    }
}

/// Such a packet. It is looked for in the tests of a rule that each pair has, and then in those that are left for all.
pub fn found_of_pair(
    alloc: Global,
    tests: &mut u64,
    rules: (Option<Rule>, Option<Rule>),
    earlier: &[Rule],
) -> Result<Finding, AllocError>
    requires apart { action_of (option_map rule_facts rules.0) ≢ action_of (option_map rule_facts rules.1) }
    requires idle { 8 ≤ length earlier.now }
    ensures found { (rest : List RuleFacts) → map rule_facts earlier.now ≡ idle_rules ++ rest
        → IfOk result (IsFinding (IsFreeApart (option_map rule_facts rules.0) (option_map rule_facts rules.1) rest)) }
    ensures fewer { tests.new ≤ tests.old }
    ensures unknown { result ≡ Ok Unknown → tests.new ≡ 0 }
{
    let mut own = TESTS_OF_A_PAIR;
    match apart_by(alloc, &mut own, rules, earlier)? {
        Finding::Unknown => apart_by(alloc, tests, rules, earlier),
        known => Ok(known),
    }
}
