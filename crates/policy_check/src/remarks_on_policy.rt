//! The remarks on a policy.
ghost use Rattle.std.specs.Prelude.{◌≡◌, ◌≤◌, ◌<◌, ◌++◌, All, IfOk, IfSome, IsTrue, None, OnOk, Some, false, length, map, option_to_list, slice_get};
ghost use Rattle.acl_policy.specs.Policies.{policy_facts, rules_of, section_facts, section_of};
ghost use Rattle.acl_policy.specs.Rules.{rule_facts};
ghost use Rattle.acl_policy.specs.Widths.{width};
ghost use Rattle.policy_check.specs.Remarks.{AreRulesTold, HasBits, HasMaskAsDest, HasNoRule, IsCoveredByNone, IsDecidingTold, IsOfDeciding, IsPolicyTold, IsRemark, IsRuleRemark, IsSectionRemark, IsSectionTold, IsShadowed, LacksMac, MatchesNoFlags, ReadsAsMask};
ghost use Rattle.policy_check.specs.declared.remark_kinds.Remark.TheVariants.{NoMac};
ghost use Rattle.policy_check.specs.inner.Added.{Adds};

use crate::remark_kinds::{Remark, Takers, Unruled};
use crate::shadowing_rules::takes_all;
use acl_policy::{Policy, Rule, Section, width_of};
use packet_view::{Direction, Family};
use rule_cover::{Cover, least_takers, uncovered};
use std::alloc::{AllocError, Global};

/// How many tests of a rule are spent on the question whether a rule never decides, and on which rules take its packets.
const MOST_TESTS: u64 = 6_553_600;

// Whether a prefix has bits behind its length, on which there is a remark.
fn has_bits(family: Family, prefix: (u128, u8)) -> bool
    requires { prefix.1 ≤ width family }
    ensures { IsTrue result → HasBits family prefix }
{
    let behind = u32::from(width_of(family) - prefix.1);
    if behind >= 128 {
        prefix.0 != 0
    } else {
        prefix.0 % (1 << behind) != 0
    }
}

// The rules of a direction of a section, on which remarks are made.
fn rules_for_remarks(section: &Section, direction: Direction) -> &[Rule]
    ensures { map rule_facts result.now ≡ rules_of direction (section_facts section.now) }
{
    match direction {
        Direction::Inbound => section.inbound.as_slice(),
        Direction::Outbound => section.outbound.as_slice(),
    }
}

// The rule at this place of a direction of a section, on which remarks are made.
fn rule_for_remarks(section: &Section, direction: Direction, place: usize) -> Rule
    requires { place < length (rules_of direction (section_facts section.now)) }
    ensures { slice_get (rules_of direction (section_facts section.now)) place ≡ Some (rule_facts result) }
{
    rules_for_remarks(section, direction)[place]
}

// The first rule before this one that covers it, by its place, for the remark that this one never decides.
fn taker(rules: &[Rule], place: usize) -> Option<usize>
    requires { place < length rules.now }
    ensures first { IfSome result (IsShadowed (map rule_facts rules.now) place) }
    ensures none { result ≡ None → IsCoveredByNone (map rule_facts rules.now) place }
{
    for i in 0..place {
        if takes_all(&rules[i], &rules[place]) {
            return Some(i);
        }
    }
    None
}

// The remark on a rule of a policy that it never decides, since one before it takes all its packets.
fn shadow_of_one(section: &Section, direction: Direction, place: usize) -> Option<Remark>
    requires { place < length (rules_of direction (section_facts section.now)) }
    ensures remark { IfSome result (IsRuleRemark (section_facts section.now) direction place) }
    ensures told { IfSome result (IsOfDeciding (section_facts section.now) direction place) }
    ensures none { result ≡ None → IsCoveredByNone (rules_of direction (section_facts section.now)) place }
{
    let first = taker(rules_for_remarks(section, direction), place)?;
    Some(Remark::Shadowed(
        section.interface,
        direction,
        place as u64 + 1,
        first as u64 + 1,
    ))
}

// The remark on a rule of a policy that it never decides, since some before it take all its packets together, or that this isn't
// known.
fn shadow_of_several(
    alloc: Global,
    section: &Section,
    direction: Direction,
    place: usize,
) -> Result<Option<Remark>, AllocError>
    requires place { place < length (rules_of direction (section_facts section.now)) }
    requires none { IsCoveredByNone (rules_of direction (section_facts section.now)) place }
    ensures remark { IfOk result (λ remark. IfSome remark (IsRuleRemark (section_facts section.now) direction place)) }
    ensures told { IfOk result (λ remark. IsDecidingTold (section_facts section.now) direction place (option_to_list remark)) }
{
    let rule = rule_for_remarks(section, direction, place);
    let earlier = &rules_for_remarks(section, direction)[..place];
    let number = place as u64 + 1;
    let mut tests = MOST_TESTS;
    match uncovered(alloc, &mut tests, &rule, &rule, earlier)? {
        Cover::Left(_) => Ok(None),
        Cover::Unknown => Ok(Some(Remark::NotKnown(section.interface, direction, number))),
        Cover::Taken(marks) => {
            let places = least_takers(alloc, &mut tests, &rule, earlier, &marks)?;
            let are_least = tests > 0;
            let takers = Takers { places, are_least };
            Ok(Some(Remark::ShadowedTogether(section.interface, direction, number, takers)))
        }
    }
}

// The remark on a rule of a policy that it never decides, or that this isn't known.
fn shadow(
    alloc: Global,
    section: &Section,
    direction: Direction,
    place: usize,
) -> Result<Option<Remark>, AllocError>
    requires { place < length (rules_of direction (section_facts section.now)) }
    ensures remark { IfOk result (λ remark. IfSome remark (IsRuleRemark (section_facts section.now) direction place)) }
    ensures told { IfOk result (λ remark. IsDecidingTold (section_facts section.now) direction place (option_to_list remark)) }
{
    match shadow_of_one(section, direction, place) {
        Some(remark) => Ok(Some(remark)),
        None => shadow_of_several(alloc, section, direction, place),
    }
}

// The remark on a rule of a policy that its source has bits behind the length of its prefix.
fn source_bits(section: &Section, direction: Direction, place: usize) -> Option<Remark>
    requires { place < length (rules_of direction (section_facts section.now)) }
    ensures { IfSome result (IsRuleRemark (section_facts section.now) direction place) }
{
    let rule = rule_for_remarks(section, direction, place);
    if has_bits(rule.family, rule.source) {
        Some(Remark::SourceBits(section.interface, direction, place as u64 + 1))
    } else {
        None
    }
}

// The remark on a rule of a policy that its destination has bits behind the length of its prefix.
fn dest_bits(section: &Section, direction: Direction, place: usize) -> Option<Remark>
    requires { place < length (rules_of direction (section_facts section.now)) }
    ensures { IfSome result (IsRuleRemark (section_facts section.now) direction place) }
{
    let rule = rule_for_remarks(section, direction, place);
    if has_bits(rule.family, rule.dest) {
        Some(Remark::DestBits(section.interface, direction, place as u64 + 1))
    } else {
        None
    }
}

// How many bits the network has of which an IPv4 address reads as the mask, where there is a remark on that.
fn bits_of_mask(address: u128) -> Option<u8>
    ensures { IfSome result (λ bits. (8 ≤ bits) × (bits < 32) × ReadsAsMask address bits) }
{
    for bits in 8..32u8 {
        let hosts: u128 = 1 << (32 - bits);
        if address == (1 << 32) - hosts || address == hosts - 1 {
            return Some(bits);
        }
    }
    None
}

// How many bits the mask has that is the destination of a rule, where there is a remark on that.
fn mask_as_dest(rule: &Rule) -> Option<u8>
    ensures { IfSome result (λ bits. HasMaskAsDest (rule_facts rule.now) bits) }
{
    if rule.family == Family::V4 && rule.dest.1 == 32 {
        bits_of_mask(rule.dest.0)
    } else {
        None
    }
}

// The remark on a rule of a policy that its destination reads as a mask.
fn mask(section: &Section, direction: Direction, place: usize) -> Option<Remark>
    requires { place < length (rules_of direction (section_facts section.now)) }
    ensures { IfSome result (IsRuleRemark (section_facts section.now) direction place) }
{
    let rule = rule_for_remarks(section, direction, place);
    let Some(bits) = mask_as_dest(&rule) else {
        return None;
    };
    Some(Remark::Mask(section.interface, direction, place as u64 + 1, bits))
}

// Whether a rule of TCP has a value with bits outside its mask, on which there is a remark.
#[tactic(auto, using(crate::proofs::ShadowLemmas::no_flags_match))]
fn has_no_flags(rule: &Rule) -> bool
    ensures { IsTrue result → MatchesNoFlags (rule_facts rule.now) }
{
    rule.proto == 6 && rule.value & rule.mask != rule.value
}

// The remark on a rule of a policy that it matches no flags.
fn unmatched_flags(section: &Section, direction: Direction, place: usize) -> Option<Remark>
    requires { place < length (rules_of direction (section_facts section.now)) }
    ensures { IfSome result (IsRuleRemark (section_facts section.now) direction place) }
{
    let rule = rule_for_remarks(section, direction, place);
    if has_no_flags(&rule) {
        Some(Remark::UnmatchedFlags(section.interface, direction, place as u64 + 1))
    } else {
        None
    }
}

fn add(all: &mut Vec<Remark>, remark: Option<Remark>) -> Result<(), AllocError>
    ensures { OnOk result (all.new.items ≡ all.old.items ++ option_to_list remark) }
{
    if let Some(remark) = remark {
        all.push(remark)?;
    }
    Ok(())
}

// Adds what is said of the rules of a direction.
fn add_rules(
    alloc: Global,
    all: &mut Vec<Remark>,
    section: &Section,
    direction: Direction,
) -> Result<(), AllocError>
    ensures adds { OnOk result (Adds (IsSectionRemark (section_facts section.now)) all.old.items all.new.items) }
    ensures told { OnOk result (AreRulesTold (section_facts section.now) direction all.new.items) }
{
    for place in 0..rules_for_remarks(section, direction).len() {
        add(all, source_bits(section, direction, place))?;
        add(all, dest_bits(section, direction, place))?;
        add(all, mask(section, direction, place))?;
        add(all, unmatched_flags(section, direction, place))?;
        let remark = shadow(alloc, section, direction, place)?;
        add(all, remark)?;
    }
    Ok(())
}

/// The remark that the section has rules for outbound packets and no own address; None where that isn't so.
pub fn no_mac(section: &Section) -> Option<Remark>
    ensures remark { IfSome result (λ remark. remark ≡ NoMac section.now.interface) }
    ensures holds { IfSome result (IsSectionRemark (section_facts section.now)) }
    ensures none { result ≡ None → LacksMac (section_facts section.now) → ⊥ }
{
    if section.own.is_none() && !section.outbound.is_empty() {
        Some(Remark::NoMac(section.interface))
    } else {
        None
    }
}

// Adds what is said of a section.
fn add_section(alloc: Global, all: &mut Vec<Remark>, section: &Section) -> Result<(), AllocError>
    ensures adds { OnOk result (Adds (IsSectionRemark (section_facts section.now)) all.old.items all.new.items) }
    ensures told { OnOk result (IsSectionTold (section_facts section.now) all.new.items) }
{
    add(all, no_mac(section))?;
    add_rules(alloc, all, section, Direction::Inbound)?;
    add_rules(alloc, all, section, Direction::Outbound)?;
    Ok(())
}

// Whether a section has no rule; where no section has one, that is the only remark on the policy.
fn is_bare(section: &Section) -> bool
    ensures yes { IsTrue result → HasNoRule (section_facts section.now) }
    ensures no { result ≡ false → HasNoRule (section_facts section.now) → ⊥ }
{
    section.inbound.is_empty() && section.outbound.is_empty()
}

/// The remark that a policy has no rule for the interface with this number; None where it has one.
pub fn unruled(policy: &Policy, interface: u8) -> Option<Unruled>
    ensures holds { IfSome result (λ told. (told.0 ≡ interface) × HasNoRule (section_of interface (policy_facts policy.now))) }
    ensures none { result ≡ None → HasNoRule (section_of interface (policy_facts policy.now)) → ⊥ }
{
    match policy.section(interface) {
        Some(section) if !is_bare(section) => None,
        _ => Some(Unruled(interface)),
    }
}

// Whether no section of a policy has a rule, which is then the only remark on it.
fn has_no_rule(policy: &Policy) -> bool
    ensures { IsTrue result → All HasNoRule (policy_facts policy.now).sections }
{
    for section in &policy.sections {
        if !is_bare(section) {
            return false;
        }
    }
    true
}

/// What is right in a policy, but unlikely to be meant. Each remark is true. Where more than 6,553,600 tests of a rule were needed
/// the remark on a rule is that it isn't known whether it ever decides. An `Err` says that memory ran out.
pub fn remarks_on(alloc: Global, policy: &Policy) -> Result<Vec<Remark>, AllocError>
    ensures remarks { IfOk result (λ all. All (IsRemark (policy_facts policy.now)) all.items) }
    ensures told { IfOk result (λ all. IsPolicyTold (policy_facts policy.now) all.items) }
{
    let mut all = Vec::new(alloc);
    if has_no_rule(policy) {
        all.push(Remark::NoRule)?;
        return Ok(all);
    }
    for section in &policy.sections {
        add_section(alloc, &mut all, section)?;
    }
    Ok(all)
}
