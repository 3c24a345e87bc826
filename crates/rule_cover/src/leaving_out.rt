//! The least rules that take all packets of another: one after the other is left out, and stays out where the others take all.
ghost use Rattle.std.specs.Prelude.{◌≡◌, ◌≢◌, ◌≤◌, ◌<◌, ℕ, All, Contains, IfOk, length, map};
ghost use Rattle.acl_policy.specs.Rules.{rule_facts};
ghost use Rattle.rule_cover.specs.Covers.{AreTaken, IsMarked, IsNeeded, IsTakenByMarked};
ghost use Rattle.rule_cover.specs.inner.Takers.{AreAt, AreMarkedIn, AreTried, IsTried};

use crate::uncovered_packets::{Cover, uncovered};
use acl_policy::Rule;
use std::alloc::{AllocError, Global};

// The places that are marked.
fn marked(alloc: Global, marks: &[bool]) -> Result<Vec<usize>, AllocError>
    ensures within { IfOk result (λ places. All (λ k. k < length marks.now) places.items) }
    ensures every { IfOk result (λ places. (k : ℕ) → IsMarked marks.now k → Contains places.items k) }
{
    let mut places = Vec::new(alloc);
    for place in 0..marks.len() {
        if marks[place] {
            places.push(place)?;
        }
    }
    Ok(places)
}

// The rules at these places.
fn rules_at(alloc: Global, rules: &[Rule], places: &[usize]) -> Result<Vec<Rule>, AllocError>
    requires { All (λ k. k < length rules.now) places.now }
    ensures { IfOk result (λ others. AreAt (map rule_facts rules.now) places.now (map rule_facts others.items)) }
{
    let mut others = Vec::new(alloc);
    for i in 0..places.len() {
        others.push(rules[places[i]])?;
    }
    Ok(others)
}

// The first so many places, and those behind them that are marked.
fn staying(
    alloc: Global,
    places: &[usize],
    first: usize,
    marks: &[bool],
) -> Result<Vec<usize>, AllocError>
    requires marks { length marks.now ≡ length places.now }
    requires first { first ≤ length places.now }
    ensures { IfOk result (λ stay. AreMarkedIn places.now first marks.now stay.items) }
{
    let mut stay = Vec::new(alloc);
    for i in 0..places.len() {
        if i < first || marks[i] {
            stay.push(places[i])?;
        }
    }
    Ok(stay)
}

// Tries to leave out the last of some places whose rules take all packets of a rule. Where it is needed it comes to stand
// first, before those that were tried; whether it does.
fn is_last_needed(
    alloc: Global,
    tests: &mut u64,
    rule: &Rule,
    rules: &[Rule],
    places: &mut Vec<usize>,
    tried: usize,
) -> Result<bool, AllocError>
    requires some { tried < length places.old.items }
    requires tried { AreTried (rule_facts rule.now) (map rule_facts rules.now) tests.old places.old.items tried }
    ensures tried { IfOk result (IsTried (rule_facts rule.now) (map rule_facts rules.now) tests.new places.old.items places.new.items tried) }
    ensures fewer { tests.new ≤ tests.old }
{
    let Some(place) = places.pop() else {
        return Ok(false);
    };
    let others = rules_at(alloc, rules, places)?;
    if let Cover::Taken(marks) = uncovered(alloc, tests, rule, rule, &others)? {
        *places = staying(alloc, places, tried, &marks)?;
        return Ok(false);
    }
    places.insert(0, place)?;
    Ok(true)
}

/// Of marked rules that take all packets of another the places of some that do, counted from 0; where a test is left, none of
/// them can be left out. An `Err` says that memory ran out.
pub fn least_takers(
    alloc: Global,
    tests: &mut u64,
    rule: &Rule,
    rules: &[Rule],
    marks: &[bool],
) -> Result<Vec<usize>, AllocError>
    requires { IsTakenByMarked (rule_facts rule.now) (rule_facts rule.now) (map rule_facts rules.now) marks.now }
    ensures within { IfOk result (λ places. All (λ k. k < length rules.now) places.items) }
    ensures taken { IfOk result (λ places. AreTaken (rule_facts rule.now) (rule_facts rule.now) (map rule_facts rules.now) (Contains places.items)) }
    ensures least { IfOk result (λ places. tests.new ≢ 0 → All (IsNeeded (rule_facts rule.now) (map rule_facts rules.now) places.items) places.items) }
    ensures fewer { tests.new ≤ tests.old }
{
    let mut places = marked(alloc, marks)?;
    let mut tried: usize = 0;
    'places: while tried < places.len() {
        if is_last_needed(alloc, tests, rule, rules, &mut places, tried)? {
            tried += 1;
        }
    }
    Ok(places)
}
