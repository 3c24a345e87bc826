//! Which rule gave a verdict, and whether two policies say the same of a packet.
ghost use Rattle.std.specs.Prelude.{◌≡◌, map, option_map};
ghost use Rattle.packet_view.specs.Captures.{packet_facts};
ghost use Rattle.acl_policy.specs.Policies.{policy_facts};
ghost use Rattle.acl_policy.specs.Rules.{rule_facts};
ghost use Rattle.compared_verdicts.specs.Changes;
ghost use Rattle.compared_verdicts.specs.Changes.{pair_facts};

use crate::change_lines::PolicyPair;
use acl_policy::{Policy, Rule};
use packet_view::{Mac, Packet};
use packet_words::{kind_of, rule_number};
use rule_cover::same_rule;
use session_state::Verdict;

// Whether a frame goes out at the interface with this own address.
fn goes_out(own: Option<Mac>, frame: &[u8]) -> bool
    ensures { result ≡ Changes.goes_out own frame.now }
{
    match own {
        None => false,
        Some(mac) => 12 <= frame.len() && frame[6..12] == mac.0[..],
    }
}

// Whether a packet goes out at its interface by this policy's section of that.
fn goes_out_by(policy: &Policy, packet: Packet<'_>) -> bool
    ensures { result ≡ Changes.goes_out_by (policy_facts policy.now) (packet_facts packet.entry) }
{
    match policy.section(packet.interface) {
        None => false,
        Some(section) => goes_out(section.own, packet.frame),
    }
}

// The rule with this number, from 1.
fn rule_numbered(rules: &[Rule], number: u16) -> Option<&Rule>
    ensures { option_map (λ r. rule_facts r.now) result ≡ Changes.rule_numbered (map rule_facts rules.now) number }
{
    if number == 0 {
        return None;
    }
    rules.get(number as usize - 1)
}

// The rule by which a policy gives a packet this verdict.
fn rule_by<'p>(policy: &'p Policy, packet: Packet<'_>, verdict: Verdict) -> Option<&'p Rule>
    ensures { option_map (λ r. rule_facts r.now) result ≡ Changes.rule_by (policy_facts policy.now) (packet_facts packet.entry) verdict }
{
    let Some(number) = rule_number(verdict) else {
        return None;
    };
    let Some(section) = policy.section(packet.interface) else {
        return None;
    };
    if goes_out(section.own, packet.frame) {
        rule_numbered(&section.outbound, number)
    } else {
        rule_numbered(&section.inbound, number)
    }
}

// Whether both are no rule, or match the same packets of one direction with the same action.
fn same_decision(same_way: bool, one: Option<&Rule>, other: Option<&Rule>) -> bool
    ensures { result ≡ Changes.same_decision same_way (option_map (λ r. rule_facts r.now) one.entry) (option_map (λ r. rule_facts r.now) other.entry) }
{
    match (one, other) {
        (None, None) => true,
        (Some(one), Some(other)) => same_way && same_rule(one, other),
        (_, _) => false,
    }
}

fn same_way(one: bool, other: bool) -> bool
    ensures { result ≡ Changes.same_way one other }
{
    if one { other } else { !other }
}

/// Whether these verdicts by two policies say the same of a packet: they are of one kind, by rules of one direction that match
/// the same packets with the same action.
#[tactic(auto, unfolding(crate::specs::Changes::agree))]
pub fn agree(policies: PolicyPair<'_>, packet: Packet<'_>, before: Verdict, after: Verdict) -> bool
    ensures { result ≡ Changes.agree (pair_facts policies.entry) (packet_facts packet.entry) before after }
{
    kind_of(before) == kind_of(after)
        && same_decision(
            same_way(
                goes_out_by(policies.before, packet),
                goes_out_by(policies.after, packet),
            ),
            rule_by(policies.before, packet, before),
            rule_by(policies.after, packet, after),
        )
}
