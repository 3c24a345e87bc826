//! The rules of one direction, as they are searched.
ghost use Rattle.std.specs.Prelude.{◌≤◌, length};
ghost use Rattle.acl_policy.specs.Rules.{most_rules};
ghost use Rattle.flow_filter.specs.RuleSearches.{searched_rules};

use acl_policy::{Action, Rule, first_match};
use packet_view::Tuple;
use rule_index::RuleIndex;

/// Rules, and how they are searched.
#[derive(Clone, Copy)]
pub enum RuleSearch<'a> {
    /// One after the other.
    Listed(&'a [Rule]),
    /// By their index.
    Indexed(&'a RuleIndex),
}

/// The rules of one direction, as they are searched.
#[derive(Clone, Copy)]
pub struct Ruleset<'a> {
    pub search: RuleSearch<'a>,
    pub ghost few: { length (searched_rules search) ≤ most_rules },
}

impl Ruleset<'_> {
    ghost use Rattle.std.specs.Prelude.{◌≡◌, ◌<◌};
    ghost use Rattle.std.specs.Option.{ForSome};
    ghost use Rattle.acl_policy.specs.Matching.{IsRuling};
    ghost use Rattle.acl_policy.specs.Rules.{most_rules};
    ghost use Rattle.packet_view.specs.Tuples.{tuple_facts};
    ghost use Rattle.flow_filter.specs.Readings.{Ruling};
    ghost use Rattle.flow_filter.specs.Rulesets.{rules_in};

    /// The first rule that matches, by its place from 0, and what it does. `None`: no rule matches.
    pub fn first_match(&self, tuple: &Tuple) -> Option<(usize, Action)>
        ensures decided { IsRuling (rules_in self.now) (tuple_facts tuple.now) result }
        ensures only { (other : Ruling) → IsRuling (rules_in self.now) (tuple_facts tuple.now) other → other ≡ result }
        ensures few { ForSome result (λ decided. decided.0 < most_rules) }
    {
        match self.search {
            RuleSearch::Listed(rules) => first_match(rules, tuple),
            RuleSearch::Indexed(index) => index.first_match(tuple),
        }
    }
}
