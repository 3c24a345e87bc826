//! Which rule decides a packet.
ghost use Rattle.std.specs.Prelude.{◌≡◌, ◌≤◌, ◌<◌, ◌↔◌, ℕ, IsTrue, Option, map};
ghost use Rattle.acl_policy.specs.declared.rule.Action.{Action};
ghost use Rattle.acl_policy.specs.Matching.{HasFields, HoldsPrefix, IsRuling, IsIn, Matches};
ghost use Rattle.acl_policy.specs.Rules.{rule_facts};
ghost use Rattle.acl_policy.specs.Widths.{width};
ghost use Rattle.packet_view.specs.Addresses.{address_limit};
ghost use Rattle.packet_view.specs.Tuples.{tuple_facts};

use crate::rule::{Action, Rule};
use crate::width_and_icmp_of_family::width_of;
use packet_view::{Family, Fields, Tuple};

/// Whether an address matches a prefix of a rule.
#[tactic(auto, using(crate::proofs::PrefixBits::begins_alike))]
pub fn has_prefix(family: Family, prefix: (u128, u8), address: u128) -> bool
    requires length { prefix.1 ≤ width family }
    requires fits { prefix.0 < address_limit family }
    requires in_family { address < address_limit family }
    ensures { IsTrue result ↔ HoldsPrefix family prefix address }
{
    let (network, length) = prefix;
    let rest = u32::from(width_of(family) - length);
    match family {
        Family::V4 => (network as u64 ^ address as u64) >> rest == 0,
        Family::V6 => rest == 128 || (network ^ address) >> rest == 0,
    }
}

// Whether a port, type or code of a packet matches a range of a rule.
fn is_in(range: (u16, u16), n: u16) -> bool
    ensures { IsTrue result ↔ IsIn range n }
{
    range.0 <= n && n <= range.1
}

// Whether the ports, flags, or type and code of a packet match a rule, as they do where the packet has none.
fn has_fields(rule: &Rule, fields: &Fields) -> bool
    ensures { IsTrue result ↔ HasFields (rule_facts rule.now) fields.now }
{
    match fields {
        Fields::Absent => true,
        Fields::Ports { from, to } => is_in(rule.first, *from) && is_in(rule.second, *to),
        Fields::Tcp { from, to, flags } => {
            is_in(rule.first, *from) && is_in(rule.second, *to) && *flags & rule.mask == rule.value
        }
        Fields::Icmp { kind, code } => {
            is_in(rule.first, u16::from(*kind)) && is_in(rule.second, u16::from(*code))
        }
    }
}

/// Whether a rule matches a packet. The tests come in the order of what they cost.
pub fn is_match(rule: &Rule, tuple: &Tuple) -> bool
    ensures { IsTrue result ↔ Matches (rule_facts rule.now) (tuple_facts tuple.now) }
{
    rule.family == tuple.family
        && (rule.proto == 0 || rule.proto == tuple.proto)
        && has_prefix(tuple.family, rule.source, tuple.source)
        && has_prefix(tuple.family, rule.dest, tuple.dest)
        && (rule.proto == 0 || has_fields(rule, &tuple.fields))
}

/// The first rule that matches, by its place from 0, and what it does. `None`: no rule matches.
pub fn first_match(rules: &[Rule], tuple: &Tuple) -> Option<(usize, Action)>
    ensures decided { IsRuling (map rule_facts rules.now) (tuple_facts tuple.now) result }
    ensures only { (other : Option (ℕ × Action))
        → IsRuling (map rule_facts rules.now) (tuple_facts tuple.now) other → other ≡ result }
{
    for (i, rule) in rules.iter().enumerate() {
        if is_match(rule, tuple) {
            return Some((i, rule.action));
        }
    }
    None
}
