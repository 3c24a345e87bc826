//! What is looked up of a policy's rules: their lines, and what is shown of each.
ghost use Rattle.std.specs.Prelude.{◌≤◌, length};
ghost use Rattle.racl_views.specs.inner.EntryLists.{AreAtPlaces};

use crate::rule_numbering::RuleLine;

/// The text of a rule, as it is shown: few bytes of one line.
#[derive(Clone, Copy)]
pub struct RuleText<'a> {
    pub text: &'a str,
    pub ghost short: { length text.now ≤ 200 },
}

/// The rules of a policy's text, the line of each at its place, and what is shown of each line.
#[derive(Drop)]
pub struct RuleTable<'a> {
    pub rules: Vec<RuleLine>,
    pub lines: Vec<u64>,
    pub texts: Vec<RuleText<'a>>,
    pub ghost placed: { AreAtPlaces lines.items rules.items },
}
