//! Packets that may start a session, of those that two rules match both.
ghost use Rattle.std.specs.Prelude.{◌≡◌, ◌≢◌, ◌≤◌, IfOk, IfSome, None, Ok, map};
ghost use Rattle.packet_view.specs.Tuples.{TupleFacts};
ghost use Rattle.acl_policy.specs.Matching.{Matches};
ghost use Rattle.acl_policy.specs.Rules.{rule_facts};
ghost use Rattle.policy_compare.specs.declared.finding.Finding.TheVariants.{Unknown};
ghost use Rattle.policy_compare.specs.inner.Findings.{IsFinding};
ghost use Rattle.policy_compare.specs.inner.Starting;
ghost use Rattle.policy_compare.specs.inner.Starting.{IsLeftOf, IsLeftOfStarting, IsNarrowed};

use crate::finding::{Finding, either, finding_of};
use acl_policy::{Action, Rule, icmp_number};
use packet_view::Family;
use rule_cover::uncovered;
use std::alloc::{AllocError, Global};

/// How many rules take what starts no session.
pub const IDLE_RULES: usize = 8;

// A rule for all addresses, by the protocol and the source port or the type.
fn idle_rule(family: Family, proto: u8, first: (u16, u16)) -> Rule
    ensures { rule_facts result ≡ Starting.idle_rule family proto first }
{
    Rule {
        action: Action::Deny,
        family,
        source: (0, 0),
        dest: (0, 0),
        proto,
        first,
        second: (0, u16::MAX),
        value: 0,
        mask: 0,
    }
}

/// Rules that match of TCP, UDP and ICMP just what starts no session: later fragments, and messages that are no echo request.
#[tactic(auto, unfolding(crate::specs::inner::Starting::idle_rules, crate::specs::inner::Starting::idle_of))]
pub fn idle_rules(alloc: Global) -> Result<Vec<Rule>, AllocError>
    ensures { IfOk result (λ all. map rule_facts all.items ≡ Starting.idle_rules) }
{
    let all = vec![in alloc;
        idle_rule(Family::V4, 6, (1, 0)),
        idle_rule(Family::V4, 17, (1, 0)),
        idle_rule(Family::V4, 1, (0, 7)),
        idle_rule(Family::V4, 1, (9, u16::MAX)),
        idle_rule(Family::V6, 6, (1, 0)),
        idle_rule(Family::V6, 17, (1, 0)),
        idle_rule(Family::V6, 58, (0, 127)),
        idle_rule(Family::V6, 58, (129, u16::MAX)),
    ]?;
    Ok(all)
}

// A rule for what another matches of a protocol.
fn narrowed(rule: &Rule, proto: u8) -> Option<Rule>
    requires { proto ≢ 0 }
    ensures some { IfSome result (λ part. IsNarrowed (rule_facts rule.now) proto (rule_facts part)) }
    ensures none { result ≡ None → (tuple : TupleFacts) → Matches (rule_facts rule.now) tuple → tuple.proto ≢ proto }
{
    if rule.proto == proto {
        return Some(*rule);
    }
    if rule.proto != 0 {
        return None;
    }
    Some(Rule {
        action: rule.action,
        family: rule.family,
        source: rule.source,
        dest: rule.dest,
        proto,
        first: (0, u16::MAX),
        second: (0, u16::MAX),
        value: 0,
        mask: 0,
    })
}

// A packet of a protocol that both rules match, and no earlier one.
fn left_of(
    alloc: Global,
    tests: &mut u64,
    proto: u8,
    one: &Rule,
    two: &Rule,
    earlier: &[Rule],
) -> Result<Finding, AllocError>
    requires { proto ≢ 0 }
    ensures found { IfOk result (IsFinding (IsLeftOf proto (rule_facts one.now) (rule_facts two.now) (map rule_facts earlier.now))) }
    ensures fewer { tests.new ≤ tests.old }
    ensures unknown { result ≡ Ok Unknown → tests.new ≡ 0 }
{
    let Some(part) = narrowed(one, proto) else {
        return Ok(Finding::Nothing);
    };
    let cover = uncovered(alloc, tests, &part, two, earlier)?;
    Ok(finding_of(cover))
}

/// A packet of TCP, UDP or ICMP that both rules match, and no earlier one. Behind `idle_rules` it may start a session.
pub fn left_of_starting(
    alloc: Global,
    tests: &mut u64,
    one: &Rule,
    two: &Rule,
    earlier: &[Rule],
) -> Result<Finding, AllocError>
    ensures found { IfOk result (IsFinding (IsLeftOfStarting (rule_facts one.now) (rule_facts two.now) (map rule_facts earlier.now))) }
    ensures fewer { tests.new ≤ tests.old }
    ensures unknown { result ≡ Ok Unknown → tests.new ≡ 0 }
{
    let segment = left_of(alloc, tests, 6, one, two, earlier)?;
    let datagram = left_of(alloc, tests, 17, one, two, earlier)?;
    let message = left_of(alloc, tests, icmp_number(one.family), one, two, earlier)?;
    Ok(either(segment, either(datagram, message)))
}
