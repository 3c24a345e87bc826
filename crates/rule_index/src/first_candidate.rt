//! The first rule that matches, among those that rows of bits leave.
ghost use Rattle.std.specs.Prelude.{◌≡◌, ◌≤◌, ◌<◌, ◌*◌, ◌+◌, List, map, length, slice_index, true, MatchOption};
ghost use Rattle.acl_policy.specs.Matching.{Decides, IsRuling};
ghost use Rattle.acl_policy.specs.Rules.{RuleFacts, rule_facts};
ghost use Rattle.packet_view.specs.Tuples.{TupleFacts, tuple_facts};
ghost use Rattle.rule_index.specs.inner.Candidates.{AllSift, AreLong};
ghost use Rattle.rule_index.specs.inner.Sieves.{KeepsMatches, MatchesAt, NoneBefore, NotAt};

use crate::numbered_row::Row;
use acl_policy::{Action, Rule, is_match};
use packet_view::Tuple;

/// For one packet, a row of each kind: a rule that matches has its bit in all of them.
#[derive(Clone, Copy)]
pub struct Candidates<'a> {
    pub source: Row<'a>,
    pub dest: Row<'a>,
    pub protocol: Row<'a>,
    pub first: Row<'a>,
    pub second: Row<'a>,
    /// That of its flags, where it has them.
    pub flags: Option<&'a [u64]>,
}

/// What the candidate at a place of the rules does, where it matches.
fn match_at(rules: &[Rule], tuple: &Tuple, place: usize) -> Option<Action>
    ensures { MatchOption result (NotAt (map rule_facts rules.now) (tuple_facts tuple.now) place)
        (MatchesAt (map rule_facts rules.now) (tuple_facts tuple.now) place) }
{
    if rules.len() <= place {
        return None;
    }
    let rule = &rules[place];
    if is_match(rule, tuple) {
        return Some(rule.action);
    }
    None
}

/// The first candidate that matches among the 64 rules from a place on, where a word has the bit of each that does.
fn first_in(rules: &[Rule], tuple: &Tuple, from: usize, word: u64) -> Option<(usize, Action)>
    requires from { from ≤ length rules.now }
    requires before { NoneBefore (map rule_facts rules.now) (tuple_facts tuple.now) from }
    requires kept { KeepsMatches (map rule_facts rules.now) (tuple_facts tuple.now) from word }
    ensures { MatchOption result (NoneBefore (map rule_facts rules.now) (tuple_facts tuple.now) (from + 64))
        (λ d. Decides (map rule_facts rules.now) (tuple_facts tuple.now) d.0 d.1) }
{
    let mut left = word;
    while left != 0 {
        let bit = left.trailing_zeros() as usize;
        if let Some(action) = match_at(rules, tuple, from + bit) {
            return Some((from + bit, action));
        }
        left = left & !(1u64 << bit);
    }
    None
}

// A word of the row for flags.
fn word_at(row: &[u64], i: usize) -> u64
    requires { i < length row.now }
    ensures { result ≡ slice_index row.now i }
{
    row[i]
}

// Whether a packet's flags leave none of 64 rules.
fn flags_leave_none(rows: &Candidates<'_>, i: usize) -> bool
    requires { AreLong rows.now (i + 1) }
    ensures { result ≡ true → (rules : List RuleFacts) (tuple : TupleFacts) → AllSift rules tuple rows.now → KeepsMatches rules tuple (i * 64) 0 }
{
    match rows.flags {
        Some(flags) => word_at(flags, i) == 0,
        None => false,
    }
}

/// The candidates that all rows leave among 64 rules, as a word. The flags, whose rows are few, come first, then the
/// addresses, which rules differ in most, and then the second port.
fn word_of(rows: &Candidates<'_>, i: usize) -> u64
    requires { AreLong rows.now (i + 1) }
    ensures { (rules : List RuleFacts) (tuple : TupleFacts) → AllSift rules tuple rows.now → KeepsMatches rules tuple (i * 64) result }
{
    if flags_leave_none(rows, i) {
        return 0;
    }
    let addresses = rows.source.word(i) & rows.dest.word(i);
    if addresses == 0 {
        return 0;
    }
    let second = addresses & rows.second.word(i);
    if second == 0 {
        return 0;
    }
    let numbers = second & rows.protocol.word(i) & rows.first.word(i);
    match rows.flags {
        Some(flags) => numbers & word_at(flags, i),
        None => numbers,
    }
}

/// The first rule that matches, where each of the packet's rows has the bit of each rule that does.
pub fn first_of(rules: &[Rule], tuple: &Tuple, rows: &Candidates<'_>) -> Option<(usize, Action)>
    requires { AllSift (map rule_facts rules.now) (tuple_facts tuple.now) rows.now }
    ensures { IsRuling (map rule_facts rules.now) (tuple_facts tuple.now) result }
{
    for i in 0..rows.source.numbers.len() {
        if let Some(found) = first_in(rules, tuple, i * 64, word_of(rows, i)) {
            return Some(found);
        }
    }
    None
}
