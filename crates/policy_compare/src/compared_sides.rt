//! What the rules of a direction decide differently by two policies, pair after pair.
ghost use Rattle.std.specs.Prelude.{◌≡◌, ◌≢◌, ◌≤◌, ◌<◌, ◌+◌, ◌++◌, IfOk, IfSome, IsTrue, None, OnOk, false, length, map, option_to_list, take, true};
ghost use Rattle.acl_policy.specs.Rules.{rule_facts};
ghost use Rattle.packet_view.specs.Tuples.{TupleFacts, tuple_facts};
ghost use Rattle.policy_compare.specs.Comparisons;
ghost use Rattle.policy_compare.specs.Comparisons.{AreApart};
ghost use Rattle.policy_compare.specs.inner.Found.{AddsDifferences, IsAtRow, IsAtSides, IsDifferenceOf, pair_at, sides_facts};
ghost use Rattle.policy_compare.specs.inner.Limits.{AreLimits, IsBehind};
ghost use Rattle.policy_compare.specs.inner.Starting;

use crate::decider::{action_by, decider_at, rule_at};
use crate::difference::{Difference, Pair};
use crate::finding::Finding;
use crate::pair_of_rules::found_of_pair;
use crate::starting_packets::{IDLE_RULES, idle_rules};
use crate::taking_rules::{Limits, Sides, limits_between};
use acl_policy::Rule;
use packet_view::Tuple;
use std::alloc::{AllocError, Global};

// What decides the packets that the rules at these places match, and none before them.
fn pair_of(sides: &Sides<'_>, i: usize, j: usize) -> Pair
    ensures { result ≡ pair_at (sides_facts sides.now) i j }
{
    Pair {
        interface: sides.interface,
        direction: sides.direction,
        before: decider_at(sides.before, i),
        after: decider_at(sides.after, j),
    }
}

// Whether the actions of a pair differ.
fn is_apart(pair: &Pair) -> bool
    ensures yes { result ≡ true → Comparisons.action_by pair.now.before ≢ Comparisons.action_by pair.now.after }
    ensures no { result ≡ false → Comparisons.action_by pair.now.before ≡ Comparisons.action_by pair.now.after }
{
    action_by(pair.before) != action_by(pair.after)
}

// A packet of this interface with the same numbers.
fn at_interface(interface: u8, tuple: &Tuple) -> Tuple
    ensures { tuple_facts result ≡ record (tuple_facts tuple.now) { interface = interface } }
{
    Tuple {
        interface,
        family: tuple.family,
        source: tuple.source,
        dest: tuple.dest,
        proto: tuple.proto,
        fields: tuple.fields,
    }
}

// Whether one of these places is behind that of a rule that takes all packets of the other's.
fn is_behind(limits: &Limits, places: (usize, usize)) -> bool
    requires { (places.0 < length limits.now.rows.items) × (places.1 < length limits.now.columns.items) }
    ensures { IsTrue result → IsBehind limits.now places.0 places.1 }
{
    if limits.rows[places.0] < places.1 {
        return true;
    }
    limits.columns[places.1] < places.0
}

// What is told of the rules at these places; `earlier` are `idle_rules`, and those before the one and before the other.
fn difference_at(
    alloc: Global,
    tests: &mut u64,
    sides: &Sides<'_>,
    limits: &Limits,
    places: (usize, usize),
    earlier: &[Rule],
) -> Result<Option<Difference>, AllocError>
    requires limits { AreLimits (sides_facts sides.now) limits.now }
    requires within { (places.0 ≤ length sides.now.before.now) × (places.1 ≤ length sides.now.after.now) }
    requires earlier { map rule_facts earlier.now ≡ Starting.idle_rules ++ (take places.0 (sides_facts sides.now).before ++ take places.1 (sides_facts sides.now).after) }
    ensures some { IfOk result (λ found. IfSome found (IsDifferenceOf (sides_facts sides.now) tests.new)) }
    ensures same { IfOk result (λ found. IfSome found (λ difference. difference.pair ≡ pair_at (sides_facts sides.now) places.0 places.1)) }
    ensures none { IfOk result (λ found. found ≡ None → (tuple : TupleFacts)
        → AreApart (sides_facts sides.now).before (sides_facts sides.now).after (pair_at (sides_facts sides.now) places.0 places.1) tuple → ⊥) }
    ensures fewer { tests.new ≤ tests.old }
{
    let pair = pair_of(sides, places.0, places.1);
    if !is_apart(&pair) {
        return Ok(None);
    }
    if is_behind(limits, places) {
        return Ok(None);
    }
    let one = rule_at(sides.before, places.0);
    let two = rule_at(sides.after, places.1);
    match found_of_pair(alloc, tests, (one, two), earlier)? {
        Finding::Packet(tuple) => Ok(Some(Difference {
            pair,
            packet: Some(at_interface(pair.interface, &tuple)),
        })),
        Finding::Nothing => Ok(None),
        Finding::Unknown => Ok(Some(Difference { pair, packet: None })),
    }
}

fn add(all: &mut Vec<Difference>, found: Option<Difference>) -> Result<(), AllocError>
    ensures { OnOk result (all.new.items ≡ all.old.items ++ option_to_list found) }
{
    if let Some(difference) = found {
        all.push(difference)?;
    }
    Ok(())
}

// The idle rules, the rules before a place of one list, and all of the other.
fn earlier_rules(
    alloc: Global,
    before: &[Rule],
    place: usize,
    after: &[Rule],
) -> Result<Vec<Rule>, AllocError>
    requires { place ≤ length before.now }
    ensures { IfOk result (λ all. map rule_facts all.items ≡ Starting.idle_rules ++ map rule_facts (take place before.now ++ after.now)) }
{
    let mut all = idle_rules(alloc)?;
    all.extend_from_slice(&before[..place])?;
    all.extend_from_slice(after)?;
    Ok(all)
}

// Adds what the rule at this place of the one list decides differently from each of the other.
fn add_row(
    alloc: Global,
    tests: &mut u64,
    all: &mut Vec<Difference>,
    sides: &Sides<'_>,
    limits: &Limits,
    place: usize,
) -> Result<(), AllocError>
    requires limits { AreLimits (sides_facts sides.now) limits.now }
    requires within { place ≤ length sides.now.before.now }
    ensures adds { OnOk result (AddsDifferences (IsDifferenceOf (sides_facts sides.now) tests.new)
        (IsAtRow (sides_facts sides.now) place (length sides.now.after.now + 1)) all.old.items all.new.items) }
    ensures fewer { tests.new ≤ tests.old }
{
    let earlier = earlier_rules(alloc, sides.before, place, sides.after)?;
    for other in 0..sides.after.len() + 1 {
        let found = difference_at(
            alloc,
            tests,
            sides,
            limits,
            (place, other),
            &earlier[..IDLE_RULES + place + other],
        )?;
        add(all, found)?;
    }
    Ok(())
}

/// Adds what the rules decide differently.
pub fn add_sides(
    alloc: Global,
    tests: &mut u64,
    all: &mut Vec<Difference>,
    sides: &Sides<'_>,
) -> Result<(), AllocError>
    ensures adds { OnOk result (AddsDifferences (IsDifferenceOf (sides_facts sides.now) tests.new) (IsAtSides (sides_facts sides.now)) all.old.items all.new.items) }
    ensures fewer { tests.new ≤ tests.old }
{
    let limits = limits_between(alloc, sides)?;
    for place in 0..sides.before.len() + 1 {
        add_row(alloc, tests, all, sides, &limits, place)?;
    }
    Ok(())
}
