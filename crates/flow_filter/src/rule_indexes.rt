//! The rules of a filter, prepared once for many packets.
ghost use Rattle.std.specs.Prelude.{◌≡◌, ◌≤◌, ◌↔◌, IfOk, IsSome, length, map};
ghost use Rattle.std.specs.Option.{ForSome};
ghost use Rattle.acl_policy.specs.Rules.{most_rules, rule_facts};
ghost use Rattle.rule_index.specs.inner.Worth.{IsWorthPreparing};
ghost use Rattle.flow_filter.specs.Rulesets.{rules_in};

use crate::ruleset::{RuleSearch, Ruleset};
use acl_policy::Rule;
use rule_index::{RuleIndex, worth_preparing};
use std::alloc::{AllocError, Global};

/// The indexes of a filter's rules. A direction whose rules are searched as fast one by one has none.
#[derive(Drop)]
pub struct RuleIndexes {
    pub inbound: Option<RuleIndex>,
    pub outbound: Option<RuleIndex>,
}

/// The index of a filter's rules of one direction, where it pays for this many packets.
pub fn index_of(
    alloc: Global,
    rules: &[Rule],
    packets: usize,
) -> Result<Option<RuleIndex>, AllocError>
    requires { length rules.now ≤ most_rules }
    ensures index { IfOk result (λ found. ForSome found (λ index. index.rules.items ≡ rules.now)) }
    ensures when { IfOk result (λ found. IsSome found ↔ IsWorthPreparing (length rules.now) packets) }
{
    if !worth_preparing(rules.len(), packets) {
        return Ok(None);
    }
    Ok(Some(RuleIndex::new(alloc, rules)?))
}

/// Rules of one direction that are searched by their index, where the filter has indexes.
pub fn rules_with_index<'a>(rules: &'a [Rule], index: &'a Option<RuleIndex>) -> Ruleset<'a>
    requires few { length rules.now ≤ most_rules }
    requires index { ForSome index.now (λ index. index.rules.items ≡ rules.now) }
    ensures { rules_in result ≡ map rule_facts rules.now }
{
    let search = match index {
        Some(index) => RuleSearch::Indexed(index),
        None => RuleSearch::Listed(rules),
    };
    Ruleset { search }
}
