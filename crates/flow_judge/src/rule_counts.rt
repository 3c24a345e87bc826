//! How many packets each rule of a policy decided.
ghost use Rattle.std.specs.Prelude.{◌≡◌, ◌+◌, ◌<◌, ◌≤◌, [], ℕ, List, IfOk, length, replicate, slice_index_or};
ghost use Rattle.acl_policy.specs.Policies.{policy_facts, rules_of, section_of};
ghost use Rattle.acl_policy.specs.Rules.{most_rules};
ghost use Rattle.flow_judge.specs.RuleCounting.{CountsNone, RuleRows, counted_at, one_more, one_more_at};
ghost use Rattle.flow_judge.specs.RuleCounting;
ghost use Rattle.packet_view.specs.declared.tuple.Direction.TheVariants.{Inbound, Outbound};

use acl_policy::Policy;
use packet_view::Direction;
use std::alloc::{AllocError, Global};
use std::marker::Model;

// How many packets each rule of a direction decided, by the rules' numbers, and at 0 how many none did.
#[derive(Drop)]
struct RuleRow {
    counts: Vec<u64>,
}

impl Model for RuleRow {
    ghost Value = { List ℕ };

    ghost view = { λ r. r.counts.items };
}

impl RuleRow {
    // Of no packet, for so many rules.
    fn none(alloc: Global, rules: usize) -> Result<RuleRow, AllocError>
        requires { rules ≤ most_rules }
        ensures { IfOk result (λ row. row ≡ replicate (rules + 1) 0) }
    {
        let counts = Vec::from_elem(alloc, 0, rules + 1)?;
        Ok(RuleRow { counts })
    }

    // One packet more was decided by this rule.
    fn count(&mut self, rule: u32)
        ensures { self.new ≡ one_more self.old rule }
    {
        let place = rule as usize;
        if place < self.counts.len() {
            self.counts[place] = self.counts[place].wrapping_add(1);
        }
    }

    // How many packets this rule decided.
    fn at(&self, rule: u32) -> u64
        ensures { result ≡ slice_index_or self.now rule 0 }
    {
        let place = rule as usize;
        if place < self.counts.len() {
            return self.counts[place];
        }
        0
    }
}

// How many rules of this direction a policy has for an interface.
fn rule_count(policy: &Policy, interface: u8, direction: Direction) -> usize
    ensures count { result ≡ length (rules_of direction (section_of interface (policy_facts policy.now))) }
    ensures few { result ≤ most_rules }
{
    match policy.section(interface) {
        Some(section) => match direction {
            Direction::Inbound => section.inbound.len(),
            Direction::Outbound => section.outbound.len(),
        },
        None => 0,
    }
}

// Counts of no packet for a policy's rules of this direction, interface by interface.
fn no_counts(
    alloc: Global,
    policy: &Policy,
    direction: Direction,
) -> Result<Vec<RuleRow>, AllocError>
    ensures { IfOk result (λ rows. CountsNone direction (policy_facts policy.now) rows.items) }
{
    let mut rows = Vec::new(alloc);
    'interfaces: for interface in 0..256usize {
        let Ok(row) = RuleRow::none(alloc, rule_count(policy, interface as u8, direction)) else {
            return Err(AllocError);
        };
        if rows.push(row).is_err() {
            return Err(AllocError);
        }
    }
    Ok(rows)
}

// Counts one packet more at this interface that was decided by this rule.
fn count_in(rows: &mut [RuleRow], interface: u8, rule: u32)
    ensures { rows.new ≡ one_more_at rows.old interface rule }
{
    let place = usize::from(interface);
    if place < rows.len() {
        rows[place].count(rule);
    }
}

/// How many packets each rule of a policy decided, modulo 2 to the power 64. Rule 0 of a direction stands for none of its rules.
#[derive(Drop)]
pub struct RuleCounts {
    inbound: Vec<RuleRow>,
    outbound: Vec<RuleRow>,
}

impl Model for RuleCounts {
    ghost Value = { RuleRows };

    ghost view = { λ c. record { inbound = c.inbound.items; outbound = c.outbound.items } };
}

impl RuleCounts {
    /// Of no packet, for the rules of this policy.
    pub fn of(alloc: Global, policy: &Policy) -> Result<RuleCounts, AllocError>
        ensures inbound { IfOk result (λ c. CountsNone Inbound (policy_facts policy.now) c.inbound) }
        ensures outbound { IfOk result (λ c. CountsNone Outbound (policy_facts policy.now) c.outbound) }
    {
        Ok(RuleCounts {
            inbound: no_counts(alloc, policy, Direction::Inbound)?,
            outbound: no_counts(alloc, policy, Direction::Outbound)?,
        })
    }

    /// Counts a packet of this direction that was seen at this interface and decided by this rule. One of a rule that the policy
    /// doesn't have isn't counted.
    pub fn count(&mut self, interface: u8, direction: Direction, rule: u32)
        ensures { self.new ≡ counted_at interface direction rule self.old }
    {
        match direction {
            Direction::Inbound => count_in(&mut self.inbound, interface, rule),
            Direction::Outbound => count_in(&mut self.outbound, interface, rule),
        }
    }

    /// How many packets of this direction at this interface the rule decided.
    pub fn at(&self, interface: u8, direction: Direction, rule: u32) -> u64
        ensures { result ≡ RuleCounting.count_at interface direction rule self.now }
    {
        let rows = match direction {
            Direction::Inbound => &self.inbound,
            Direction::Outbound => &self.outbound,
        };
        let place = usize::from(interface);
        if place < rows.len() {
            return rows[place].at(rule);
        }
        0
    }
}
