//! Counts of packets, and the hits that are told of them.
ghost use Rattle.std.specs.Prelude.{◌≡◌, ◌+◌, ◌-◌, ◌<◌, ◌≤◌, ◌==◌, ◌^◌, ℕ, [], IfSome, OnOk, count_by, get_or, if◌then◌else◌, length, max};
ghost use Rattle.packet_view.specs.CheckedCaptures.{remaining};
ghost use Rattle.acl_policy.specs.Policies.{PolicyFacts, policy_facts};
ghost use Rattle.racl_views.specs.declared.rule_numbering.RuleName as code;
ghost use Rattle.racl_views.specs.inner.Places.{place_of};
ghost use Rattle.racl_views.specs.inner.Counts.{AreCountedOn};
ghost use Rattle.racl_views.specs.Deciding.{decided_by};
ghost use Rattle.racl_views.specs.HitCounts.{HaveCounted, HaveCountedOn, MayCount};
ghost use Rattle.racl_views.specs.Hits;

use crate::counting_reasons::{NoRule, ReasonCounts, count_reasons, no_reasons};
use crate::deciding_rule::deciding_rule;
use crate::place_of_rule::{place, reach_rule_place};
use crate::rule_numbering::{RuleLine, RuleName};
use acl_policy::Policy;
use packet_view::Packets;
use session_state::Verdict;
use std::alloc::{AllocError, Global};

/// How many packets were decided by each rule, or for another reason, and how many entered a session.
#[derive(Drop)]
pub struct HitCounts {
    /// How many each rule decided, at the rule's place.
    pub rules: Vec<u64>,
    pub reasons: ReasonCounts,
    /// How many entered a session.
    pub entered: u64,
}

/// How many packets or sessions there are of a kind.
#[derive(Clone, Copy)]
pub enum Hit {
    /// Packets that a rule decided.
    Rule(RuleLine, u64),
    /// Packets whose verdict is no rule's, for this reason.
    Unruled(NoRule, u64),
    /// Sessions that were entered.
    Entered(u64),
    /// Packets that these let through.
    Matched(u64),
    /// Sessions that were entered and have expired.
    Expired(u64),
}

// Counts one packet more at the place of a rule.
fn count_one(counts: &mut Vec<u64>, place: usize) -> Result<(), AllocError>
    requires { get_or counts.old.items place 0 < 2 ^ 64 - 1 }
    ensures { OnOk result ((k : ℕ) → get_or counts.new.items k 0 ≡ get_or counts.old.items k 0 + (if place == k then 1 else 0)) }
{
    reach_rule_place(counts, place)?;
    counts[place] += 1;
    Ok(())
}

// Counts the packet that a rule decided, or that none did.
fn count_decided(counts: &mut Vec<u64>, rule: Option<RuleName>) -> Result<(), AllocError>
    requires small { (place : ℕ) → get_or counts.old.items place 0 < 2 ^ 64 - 1 }
    requires interface { IfSome rule (λ r. r.interface < 2 ^ 8) }
    requires number { IfSome rule (λ r. r.number < 2 ^ 16) }
    ensures counted { OnOk result ((name : code.RuleName) → name.interface < 2 ^ 8
        → get_or counts.new.items (place_of name) 0 ≡ get_or counts.old.items (place_of name) 0 + (if decided_by name rule then 1 else 0)) }
    ensures few { OnOk result ((place : ℕ) → get_or counts.new.items place 0 ≤ get_or counts.old.items place 0 + 1) }
{
    match rule {
        Some(rule) => count_one(counts, place(&rule) as usize),
        None => Ok(()),
    }
}

// Counts how many packets each rule decided, beside those before.
fn count_packets(
    counts: &mut Vec<u64>,
    policy: &Policy,
    packets: Packets<'_>,
    verdicts: &[Verdict],
) -> Result<(), AllocError>
    requires { (place : ℕ) → get_or counts.old.items place 0 + length verdicts.now < 2 ^ 64 }
    ensures { OnOk result (AreCountedOn (policy_facts policy.now) counts.old.items (remaining packets.entry) verdicts.now counts.new.items) }
{
    let mut left = packets;
    'verdicts: for verdict in verdicts {
        let Some(packet) = left.next() else {
            return Ok(());
        };
        count_decided(counts, deciding_rule(policy, packet, *verdict))?;
    }
    Ok(())
}

// Whether a packet with this verdict is counted as one that entered a session.
fn is_entry(verdict: Verdict) -> bool
    ensures { result ≡ Hits.is_entry verdict }
{
    matches!(verdict, Verdict::Reflect(_))
}

// How many packets entered a session, by their verdicts.
fn count_session_entries(verdicts: &[Verdict]) -> u64
    ensures { result ≡ count_by Hits.is_entry verdicts.now }
{
    let mut count = 0;
    'verdicts: for verdict in verdicts {
        if is_entry(*verdict) {
            count += 1;
        }
    }
    count
}

/// The latest second of any packet, among these and those before, of which this is the latest: 0 where there are none.
pub fn latest_second(before: u32, packets: Packets<'_>) -> u32
    ensures { result ≡ max before (Hits.latest_second (remaining packets.entry)) }
{
    let mut left = packets;
    let mut latest = before;
    'packets: while let Some(packet) = left.next() {
        latest = latest.max(packet.moment);
    }
    latest
}

impl HitCounts {
    /// Those of no packets.
    pub fn new(alloc: Global) -> HitCounts
        ensures { (policy : PolicyFacts) → HaveCounted policy [] [] result }
    {
        HitCounts {
            rules: Vec::new(alloc),
            reasons: no_reasons(),
            entered: 0,
        }
    }

    /// Counts these packets too, under this policy, which has these verdicts on them. An `Err` says that memory ran out; then
    /// the counts are of no use.
    pub fn count(
        &mut self,
        policy: &Policy,
        packets: Packets<'_>,
        verdicts: &[Verdict],
    ) -> Result<(), AllocError>
        requires { MayCount self.old (length verdicts.now) }
        ensures { OnOk result (HaveCountedOn (policy_facts policy.now) self.old (remaining packets.entry) verdicts.now self.new) }
    {
        count_packets(&mut self.rules, policy, packets, verdicts)?;
        count_reasons(&mut self.reasons, verdicts);
        self.entered += count_session_entries(verdicts);
        Ok(())
    }
}
