//! What two policies decide differently.
ghost use Rattle.std.specs.Prelude.{◌≡◌, ◌≤◌, [], IfOk, IsTrue, OnOk, false, map};
ghost use Rattle.packet_view.specs.declared.tuple.Direction.TheVariants.{Outbound};
ghost use Rattle.acl_policy.specs.Policies.{policy_facts};
ghost use Rattle.acl_policy.specs.Rules.{rule_facts};
ghost use Rattle.policy_compare.specs.Comparisons;
ghost use Rattle.policy_compare.specs.Comparisons.{GoByBoth, IsComparison, IsDifference};
ghost use Rattle.policy_compare.specs.inner.Found;
ghost use Rattle.policy_compare.specs.inner.Found.{AddsDifferences, IsAtInterface, IsBeforeInterface, sides_facts};

use crate::compared_sides::add_sides;
use crate::difference::{Comparison, Difference};
use crate::own_addresses::{other_addresses, own_at};
use crate::taking_rules::Sides;
use acl_policy::{Policy, Rule};
use packet_view::Direction;
use std::alloc::{AllocError, Global};

// The rules of a policy for packets of a direction at an interface.
fn rules_at(policy: &Policy, interface: u8, direction: Direction) -> &[Rule]
    ensures { map rule_facts result.now ≡ Comparisons.rules_at (policy_facts policy.now) interface direction }
{
    match (policy.section(interface), direction) {
        (Some(section), Direction::Inbound) => section.inbound.as_slice(),
        (Some(section), Direction::Outbound) => section.outbound.as_slice(),
        (None, _) => &[],
    }
}

// The rules of a direction at an interface by two policies.
fn sides_at<'a>(
    before: &'a Policy,
    after: &'a Policy,
    interface: u8,
    direction: Direction,
) -> Sides<'a>
    ensures { sides_facts result ≡ Found.sides_at (policy_facts before.entry.now) (policy_facts after.entry.now) interface direction }
{
    Sides {
        interface,
        direction,
        before: rules_at(before, interface, direction),
        after: rules_at(after, interface, direction),
    }
}

// Whether packets go out at an interface by both policies.
fn go_out(before: &Policy, after: &Policy, interface: u8) -> bool
    ensures yes { IsTrue result → GoByBoth (policy_facts before.now) (policy_facts after.now) interface Outbound }
    ensures no { result ≡ false → GoByBoth (policy_facts before.now) (policy_facts after.now) interface Outbound → ⊥ }
{
    own_at(before, interface).is_some() && own_at(after, interface).is_some()
}

// Adds what the policies decide differently at an interface.
fn add_interface(
    alloc: Global,
    tests: &mut u64,
    all: &mut Vec<Difference>,
    before: &Policy,
    after: &Policy,
    interface: u8,
) -> Result<(), AllocError>
    ensures adds { OnOk result (AddsDifferences (IsDifference (policy_facts before.now) (policy_facts after.now) tests.new)
        (IsAtInterface (policy_facts before.now) (policy_facts after.now) interface) all.old.items all.new.items) }
    ensures fewer { tests.new ≤ tests.old }
{
    let inbound = sides_at(before, after, interface, Direction::Inbound);
    add_sides(alloc, tests, all, &inbound)?;
    if !go_out(before, after, interface) {
        return Ok(());
    }
    let outbound = sides_at(before, after, interface, Direction::Outbound);
    add_sides(alloc, tests, all, &outbound)?;
    Ok(())
}

// What two policies decide differently at whichever interface.
fn differences_of(
    alloc: Global,
    tests: &mut u64,
    before: &Policy,
    after: &Policy,
) -> Result<Vec<Difference>, AllocError>
    ensures { IfOk result (λ all. AddsDifferences (IsDifference (policy_facts before.now) (policy_facts after.now) tests.new)
        (IsBeforeInterface (policy_facts before.now) (policy_facts after.now) 256) [] all.items) }
{
    let mut all = Vec::new(alloc);
    for number in 0..256u16 {
        add_interface(alloc, tests, &mut all, before, after, number as u8)?;
    }
    Ok(all)
}

/// Pairs of rules that let different things become of packets by two policies, each with an example, in the order of interfaces,
/// directions and rules. Pairs that need many tests of a rule share these, and are told without an example only where none is
/// left. An `Err` says that memory ran out.
pub fn compare_policies(
    alloc: Global,
    tests: &mut u64,
    before: &Policy,
    after: &Policy,
) -> Result<Comparison, AllocError>
    ensures { IfOk result (IsComparison (policy_facts before.now) (policy_facts after.now) tests.new) }
{
    let interfaces = other_addresses(alloc, before, after)?;
    let differences = differences_of(alloc, tests, before, after)?;
    Ok(Comparison {
        interfaces,
        differences,
    })
}
