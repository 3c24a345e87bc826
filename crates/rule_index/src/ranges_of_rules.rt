//! The ranges of numbers that rules are about.
ghost use Rattle.std.specs.Prelude.{◌≡◌, ◌≤◌, ◌<◌, ◌^◌, ℕ, IfOk, map};
ghost use Rattle.rule_index.specs.Dimensions.{port_range, protocol_base, protocol_range, Span, Spans};
ghost use Rattle.acl_policy.specs.Matching.{HoldsPrefix};
ghost use Rattle.rule_index.specs.Rows.{IsWithin};
ghost use Rattle.acl_policy.specs.Rules.{rule_facts};
ghost use Rattle.acl_policy.specs.Widths.{width};

use acl_policy::{Rule, width_of};
use packet_view::Family;
use std::alloc::{AllocError, Global};

const EVERY: (u128, u128) = (0, u128::MAX);

/// A number of a packet.
#[derive(Clone, Copy)]
pub enum Dimension {
    Source,
    Dest,
    /// The protocol and the family.
    Protocol,
    /// The source port, or the type of ICMP.
    First,
    /// The destination port, or the code of ICMP.
    Second,
}

/// The range of the addresses that begin as a prefix does.
#[tactic(auto, using(crate::proofs::RangeLemmas::in_block))]
fn prefix_range(family: Family, prefix: (u128, u8)) -> (u128, u128)
    requires { prefix.1 ≤ width family }
    ensures { (address : ℕ) → address < 2 ^ 128 → HoldsPrefix family prefix address → IsWithin result address }
{
    let rest = u32::from(width_of(family) - prefix.1);
    if rest == 128 {
        return EVERY;
    }
    let size = 1u128 << rest;
    let low = prefix.0 - prefix.0 % size;
    (low, low.saturating_add(size - 1))
}

/// Where the range of a family's protocols begins.
pub fn base_of(family: Family) -> u128
    ensures { result ≡ protocol_base family }
{
    match family {
        Family::V4 => 0,
        Family::V6 => 256,
    }
}

/// The range of a rule's protocol and family: one number, or all numbers of the family for every protocol.
fn protocol_range(family: Family, proto: u8) -> (u128, u128)
    ensures { result ≡ protocol_range family proto }
{
    let base = base_of(family);
    if proto == 0 {
        (base, base + 255)
    } else {
        (base + u128::from(proto), base + u128::from(proto))
    }
}

/// The range of a rule's ports, types or codes: every number where the rule is for every protocol.
fn port_range(proto: u8, ports: (u16, u16)) -> (u128, u128)
    ensures { result ≡ port_range proto ports }
{
    if proto == 0 {
        EVERY
    } else {
        (u128::from(ports.0), u128::from(ports.1))
    }
}

/// A range that holds a number of each packet that a rule matches.
fn range_of(rule: &Rule, dimension: Dimension) -> (u128, u128)
    ensures { Spans dimension (rule_facts rule.now) result }
{
    match dimension {
        Dimension::Source => prefix_range(rule.family, rule.source),
        Dimension::Dest => prefix_range(rule.family, rule.dest),
        Dimension::Protocol => protocol_range(rule.family, rule.proto),
        Dimension::First => port_range(rule.proto, rule.first),
        Dimension::Second => port_range(rule.proto, rule.second),
    }
}

/// A range for each rule.
pub fn ranges_of(
    alloc: Global,
    rules: &[Rule],
    dimension: Dimension,
) -> Result<Vec<(u128, u128)>, AllocError>
    ensures { IfOk result (λ ranges. Span dimension (map rule_facts rules.now) ranges.items) }
{
    let mut ranges = Vec::with_capacity(alloc, rules.len())?;
    for rule in rules {
        ranges.push(range_of(rule, dimension))?;
    }
    Ok(ranges)
}
