//! Whether two rules match the same packets with the same action, whatever their words are.
ghost use Rattle.std.specs.Prelude.{◌≡◌, ◌↔◌, ◌&&◌, true};
ghost use Rattle.packet_view.specs.Tuples.{TupleFacts};
ghost use Rattle.acl_policy.specs.Matching.{Matches};
ghost use Rattle.acl_policy.specs.Rules.{RuleFacts, rule_facts};
ghost use Rattle.rule_cover.specs.Covers.{IsPacket};
ghost use Rattle.rule_cover.specs.SameRules;

use acl_policy::{Action, Rule, has_prefix, icmp_number};
use packet_view::Family;

fn action_number(action: Action) -> u8
    ensures { result ≡ SameRules.action_number action }
{
    match action {
        Action::Deny => 0,
        Action::Permit => 1,
        Action::Reflect => 2,
    }
}

fn family_number(family: Family) -> u8
    ensures { result ≡ SameRules.family_number family }
{
    match family {
        Family::V4 => 4,
        Family::V6 => 6,
    }
}

// Whether two rules of one family have the same prefixes.
fn same_prefixes(one: &Rule, other: &Rule) -> bool
    requires { one.now.family ≡ other.now.family }
    ensures { result ≡ (SameRules.same_prefix one.now.family one.now.source other.now.source && SameRules.same_prefix one.now.family one.now.dest other.now.dest) }
{
    (one.source.1 == other.source.1 && has_prefix(one.family, one.source, other.source.0))
        && (one.dest.1 == other.dest.1 && has_prefix(one.family, one.dest, other.dest.0))
}

fn same_range(one: (u16, u16), other: (u16, u16)) -> bool
    ensures { result ≡ SameRules.same_pair one other }
{
    one.0 == other.0 && one.1 == other.1
}

fn same_ports(one: &Rule, other: &Rule) -> bool
    ensures { result ≡ SameRules.same_ports (rule_facts one.now) (rule_facts other.now) }
{
    same_range(one.first, other.first) && same_range(one.second, other.second)
}

fn last_byte(n: u16) -> u16
    ensures { result ≡ SameRules.last_byte n }
{
    if 255 <= n { 255 } else { n }
}

fn same_bytes(one: (u16, u16), other: (u16, u16)) -> bool
    ensures { result ≡ SameRules.same_bytes one other }
{
    one.0 == other.0 && last_byte(one.1) == last_byte(other.1)
}

fn has_no_flags(rule: &Rule) -> bool
    ensures { result ≡ SameRules.has_no_flags (rule_facts rule.now) }
{
    !(rule.value & rule.mask == rule.value)
}

fn same_segments(one: &Rule, other: &Rule) -> bool
    ensures { result ≡ SameRules.same_segments (rule_facts one.now) (rule_facts other.now) }
{
    (has_no_flags(one) && has_no_flags(other))
        || (same_ports(one, other) && (one.value == other.value && one.mask == other.mask))
}

// Whether two rules of one protocol match the same fields.
fn same_fields(one: &Rule, other: &Rule) -> bool
    ensures { result ≡ SameRules.same_fields (rule_facts one.now) (rule_facts other.now) }
{
    if one.proto == 6 {
        same_segments(one, other)
    } else if one.proto == 17 {
        same_ports(one, other)
    } else if one.proto == icmp_number(one.family) {
        same_bytes(one.first, other.first) && same_bytes(one.second, other.second)
    } else {
        true
    }
}

/// Whether two rules match the same packets with the same action.
pub fn same_rule(one: &Rule, other: &Rule) -> bool
    ensures { result ≡ SameRules.same_rule (rule_facts one.now) (rule_facts other.now) }
{
    family_number(one.family) == family_number(other.family)
        && (action_number(one.action) == action_number(other.action)
            && (one.proto == other.proto && (same_prefixes(one, other) && same_fields(one, other))))
}

/// Rules that are the same by `same_rule` match the same packets.
pub fn same_rules_match_the_same_packets()
    ensures { (one other : RuleFacts) (tuple : TupleFacts) → SameRules.same_rule one other ≡ true → IsPacket tuple
        → Matches one tuple ↔ Matches other tuple }
{}
