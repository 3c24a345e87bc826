//! Rows for flags, made of rules and read at a value.
ghost use Rattle.std.specs.Prelude.{◌≡◌, ◌≢◌, ◌≤◌, ◌<◌, ◌*◌, ◌/◌, ℕ, IfOk, IfSome, IsTrue, List, Some, length, map, slice_get};
ghost use Rattle.std.specs.Option.{ForSome};
ghost use Rattle.acl_policy.specs.Matching.{Matches};
ghost use Rattle.acl_policy.specs.Rules.{RuleFacts, most_rules, rule_facts};
ghost use Rattle.packet_view.specs.Tuples.{TupleFacts};
ghost use Rattle.rule_index.specs.FlagBits.{HaveFree, SievesFlags};
ghost use Rattle.rule_index.specs.Flagged.{IsFlagsOf};
ghost use Rattle.rule_index.specs.Rows.{bit_in};
ghost use Rattle.rule_index.specs.inner.Sieves.{Sifts};

use super::FlagRows;
use crate::bit_rows::{accumulate, set_bit, words_for};
use acl_policy::Rule;
use std::alloc::{AllocError, Global};

/// Whether a rule may match packets with these flags, so that it has its bit in their row.
fn may_have(rule: &Rule, flags: u8) -> bool
    ensures { (tuple : TupleFacts) → IsFlagsOf tuple.fields flags → Matches (rule_facts rule.now) tuple → IsTrue result }
{
    rule.proto == 0 || flags & rule.mask == rule.value
}

/// Sets the bit of a rule in the row of each value that it may match.
fn mark_flags(rows: &mut [u64], width: usize, place: usize, rule: &Rule)
    requires rows { length rows.now ≡ 256 * width }
    requires place { place / 64 < width }
    ensures len { length rows.new ≡ length rows.old }
    ensures kept { (i k : ℕ) → k / 64 < width → bit_in width rows.old i k ≡ 1 → bit_in width rows.new i k ≡ 1 }
    ensures marked { (x : ℕ) (tuple : TupleFacts) → x < 256 → IsFlagsOf tuple.fields x → Matches (rule_facts rule.now) tuple
        → bit_in width rows.new x place ≡ 1 }
{
    for value in 0..256usize {
        if may_have(rule, value as u8) {
            set_bit(rows, width, value, place);
        }
    }
}

/// Sets the bit of each rule that asks for no flags in the first row.
fn mark_free(rows: &mut [u64], width: usize, rules: &[Rule])
    requires rows { length rows.now ≡ 256 * width }
    requires width { length rules.now ≤ 64 * width }
    requires clear { (row k : ℕ) → bit_in width rows.now row k ≡ 0 }
    ensures len { length rows.new ≡ length rows.old }
    ensures first { (k : ℕ) (rule : RuleFacts) → slice_get (map rule_facts rules.now) k ≡ Some rule → rule.mask ≡ 0 → bit_in width rows.new 0 k ≡ 1 }
    ensures still { (row k : ℕ) → k / 64 < width → row ≢ 0 → bit_in width rows.new row k ≡ 0 }
{
    for (place, rule) in rules.iter().enumerate() {
        if rule.mask != 0 {
            continue;
        }
        set_bit(rows, width, 0, place);
    }
}

/// Sets the bit of each rule that asks for flags in the row of each value of these that it may match.
fn mark_asking(rows: &mut [u64], width: usize, rules: &[Rule])
    requires rows { length rows.now ≡ 256 * width }
    requires width { length rules.now ≤ 64 * width }
    requires free { HaveFree (map rule_facts rules.now) width rows.now }
    ensures len { length rows.new ≡ length rows.old }
    ensures marked { (k x : ℕ) (rule : RuleFacts) (tuple : TupleFacts) → slice_get (map rule_facts rules.now) k ≡ Some rule → x < 256
        → IsFlagsOf tuple.fields x → Matches rule tuple → bit_in width rows.new x k ≡ 1 }
{
    for (place, rule) in rules.iter().enumerate() {
        if rule.mask == 0 {
            continue;
        }
        mark_flags(rows, width, place, rule);
    }
}

/// Gives the row of each value of the flags, which has no bit yet, the bit of each rule that may match it.
fn fill(rows: &mut [u64], width: usize, rules: &[Rule])
    requires rows { length rows.now ≡ 256 * width }
    requires width { length rules.now < 64 * width }
    requires clear { (row k : ℕ) → bit_in width rows.now row k ≡ 0 }
    ensures len { length rows.new ≡ length rows.old }
    ensures marked { (k x : ℕ) (rule : RuleFacts) (tuple : TupleFacts) → slice_get (map rule_facts rules.now) k ≡ Some rule → x < 256
        → IsFlagsOf tuple.fields x → Matches rule tuple → bit_in width rows.new x k ≡ 1 }
{
    mark_free(rows, width, rules);
    accumulate(rows, width);
    mark_asking(rows, width, rules);
}

impl FlagRows {
    /// Builds the rows that some rules have for flags.
    pub fn of_rules(alloc: Global, rules: &[Rule]) -> Result<FlagRows, AllocError>
        requires { length rules.now ≤ most_rules }
        ensures { IfOk result (SievesFlags (map rule_facts rules.now)) }
    {
        let width = words_for(rules.len());
        let mut rows = Vec::from_elem(alloc, 0u64, 256 * width)?;
        fill(&mut rows, width, rules);
        Ok(FlagRows { width, rows })
    }

    /// The row that was built for a value of the flags.
    pub fn row(&self, flags: u8) -> &[u64]
        ensures { (rules : List RuleFacts) (tuple : TupleFacts) → SievesFlags rules self.now → IsFlagsOf tuple.fields flags
            → Sifts rules tuple result.now }
    {
        let from = usize::from(flags) * self.width;
        &self.rows[from..from + self.width]
    }

    /// The row that was built for the flags of a packet that has them.
    pub fn row_of(&self, flags: Option<u8>) -> Option<&[u64]>
        ensures { (rules : List RuleFacts) (tuple : TupleFacts) → SievesFlags rules self.now → IfSome flags (IsFlagsOf tuple.fields)
            → ForSome result (λ row. Sifts rules tuple row.now) }
    {
        match flags {
            Some(flags) => Some(self.row(flags)),
            None => None,
        }
    }
}
