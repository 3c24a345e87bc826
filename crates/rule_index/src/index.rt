//! Rules prepared for many packets, when to prepare them, and the rule of a packet found by them.
ghost use Rattle.std.specs.Prelude.{◌≡◌, ◌≤◌, ◌<◌, ◌↔◌, ℕ, IfOk, IfSome, Option, length, map, IsTrue};
ghost use Rattle.acl_policy.specs.declared.rule.Action.{Action};
ghost use Rattle.acl_policy.specs.Matching.{IsRuling};
ghost use Rattle.acl_policy.specs.Rules.{most_rules, rule_facts};
ghost use Rattle.packet_view.specs.Tuples.{tuple_facts};
ghost use Rattle.rule_index.specs.inner.Candidates.{AllSift};
ghost use Rattle.rule_index.specs.declared.ranges_of_rules.Dimension.TheVariants.{Dest, First, Protocol, Second, Source};
ghost use Rattle.rule_index.specs.Dimensions.{IsAt, IsFirst, IsSecond};
ghost use Rattle.rule_index.specs.FlagBits.{SievesFlags};
ghost use Rattle.rule_index.specs.Flagged.{IsFlagsOf};
ghost use Rattle.rule_index.specs.Indexes.{Sieves};
ghost use Rattle.rule_index.specs.inner.Worth.{IsWorthPreparing};

use crate::column::Column;
use crate::first_candidate::{Candidates, first_of};
use crate::flag_rows::FlagRows;
use crate::ranges_of_rules::{Dimension, base_of};
use acl_policy::{Action, Rule};
use packet_view::{Fields, Tuple};
use std::alloc::{AllocError, Global};

/// Rules in their order, and for each number of a packet which of them may match it.
#[derive(Drop)]
pub struct RuleIndex {
    pub rules: Vec<Rule>,
    source: Column,
    dest: Column,
    protocol: Column,
    first: Column,
    second: Column,
    flags: FlagRows,
    pub ghost source_sieves: { Sieves Source (map rule_facts rules.items) source },
    pub ghost dest_sieves: { Sieves Dest (map rule_facts rules.items) dest },
    pub ghost protocol_sieves: { Sieves Protocol (map rule_facts rules.items) protocol },
    pub ghost first_sieves: { Sieves First (map rule_facts rules.items) first },
    pub ghost second_sieves: { Sieves Second (map rule_facts rules.items) second },
    pub ghost flags_sieves: { SievesFlags (map rule_facts rules.items) flags },
}

// The index is searched by this number of a packet: its source port, or its type.
fn lookup_first(fields: &Fields) -> Option<u128>
    ensures { IfSome result (IsFirst fields.now) }
{
    match fields {
        Fields::Absent => None,
        Fields::Ports { from, .. } | Fields::Tcp { from, .. } => Some(u128::from(*from)),
        Fields::Icmp { kind, .. } => Some(u128::from(*kind)),
    }
}

// The index is searched by this number of a packet: its destination port, or its code.
fn lookup_second(fields: &Fields) -> Option<u128>
    ensures { IfSome result (IsSecond fields.now) }
{
    match fields {
        Fields::Absent => None,
        Fields::Ports { to, .. } | Fields::Tcp { to, .. } => Some(u128::from(*to)),
        Fields::Icmp { code, .. } => Some(u128::from(*code)),
    }
}

// The index is searched by these flags of a packet of TCP.
fn lookup_flags(fields: &Fields) -> Option<u8>
    ensures { IfSome result (IsFlagsOf fields.now) }
{
    match fields {
        Fields::Tcp { flags, .. } => Some(*flags),
        Fields::Absent | Fields::Ports { .. } | Fields::Icmp { .. } => None,
    }
}

// The index is searched by this number of a packet: its protocol, and its family.
fn lookup_protocol(tuple: &Tuple) -> u128
    ensures { IsAt Protocol (tuple_facts tuple.now) result }
{
    base_of(tuple.family) + u128::from(tuple.proto)
}

impl RuleIndex {
    /// The index of some rules. It takes memory, and no lookup in it does.
    pub fn new(alloc: Global, rules: &[Rule]) -> Result<RuleIndex, AllocError>
        requires { length rules.now ≤ most_rules }
        ensures { IfOk result (λ index. index.rules.items ≡ rules.now) }
    {
        let source = Column::of_rules(alloc, rules, Dimension::Source)?;
        let dest = Column::of_rules(alloc, rules, Dimension::Dest)?;
        let protocol = Column::of_rules(alloc, rules, Dimension::Protocol)?;
        let first = Column::of_rules(alloc, rules, Dimension::First)?;
        let second = Column::of_rules(alloc, rules, Dimension::Second)?;
        let flags = FlagRows::of_rules(alloc, rules)?;
        let rules = Vec::from_slice(alloc, rules)?;
        Ok(RuleIndex {
            rules,
            source,
            dest,
            protocol,
            first,
            second,
            flags,
        })
    }

    /// The rows that are looked up for a packet. Where it has no ports or no type, none of these leaves a rule
    /// out.
    fn candidates(&self, tuple: &Tuple) -> Candidates<'_>
        ensures { AllSift (map rule_facts self.now.rules.items) (tuple_facts tuple.now) result }
    {
        let protocol = self.protocol.row(lookup_protocol(tuple));
        Candidates {
            source: self.source.row(tuple.source),
            dest: self.dest.row(tuple.dest),
            protocol,
            first: self.first.row_or(lookup_first(&tuple.fields), protocol),
            second: self.second.row_or(lookup_second(&tuple.fields), protocol),
            flags: self.flags.row_of(lookup_flags(&tuple.fields)),
        }
    }

    /// Looks up the first rule that matches, by its place from 0, and says what it does. `None`: no rule matches.
    pub fn first_match(&self, tuple: &Tuple) -> Option<(usize, Action)>
        ensures decided { IsRuling (map rule_facts self.now.rules.items) (tuple_facts tuple.now) result }
        ensures only { (other : Option (ℕ × Action))
            → IsRuling (map rule_facts self.now.rules.items) (tuple_facts tuple.now) other → other ≡ result }
        ensures place { IfSome result (λ d. d.0 < length self.now.rules.items) }
    {
        first_of(&self.rules, tuple, &self.candidates(tuple))
    }
}

/// Whether rules are to be prepared for this many packets.
///
/// Up to 64 rules are searched one by one as fast. More are prepared in the time in which this many packets are searched
/// one by one, as `bench/measure_rules` measures it.
pub fn worth_preparing(rules: usize, packets: usize) -> bool
    ensures { IsTrue result ↔ IsWorthPreparing rules packets }
{
    rules > 64 && packets > rules / 2 && packets - rules / 2 > 2500
}
