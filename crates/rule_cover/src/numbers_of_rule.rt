//! The numbers that a rule matches in packets that show some.
ghost use Rattle.std.specs.Prelude.{◌≡◌, ◌≢◌, ◌↔◌, ℕ, bit_and};
ghost use Rattle.packet_view.specs.declared.tuple.Fields.{Fields};
ghost use Rattle.packet_view.specs.declared.tuple.Fields.TheVariants.{Icmp, Ports, Tcp};
ghost use Rattle.acl_policy.specs.Matching.{HasFields, IsIn};
ghost use Rattle.acl_policy.specs.Rules.{rule_facts};
ghost use Rattle.rule_cover.specs.Covers.{AreSmall};
ghost use Rattle.rule_cover.specs.inner.Regions.{HasFlags, HasNumbers, shown_of};

use crate::region::{Numbers, Shown};
use acl_policy::Rule;

// The flags that are set, and those that aren't, where a rule matches the flags.
fn flags_of_rule(value: u8, mask: u8) -> (u8, u8)
    ensures { (flags : ℕ) → HasFlags result.0 result.1 flags ↔ (bit_and flags mask ≡ value) }
{
    if value & mask == value {
        (value, value ^ mask)
    } else {
        (1, 1)
    }
}

// The range of a rule's ports, types or codes.
fn range_in_rule(range: (u16, u16)) -> (u128, u128)
    ensures { (n : ℕ) → IsIn result n ↔ IsIn range n }
{
    (u128::from(range.0), u128::from(range.1))
}

// All numbers, of which a rule for every protocol takes each.
fn all_numbers() -> Numbers
    ensures { (fields : Fields) → AreSmall fields → HasNumbers result fields }
{
    Numbers {
        first: (0, 65535),
        second: (0, 65535),
        ones: 0,
        zeros: 0,
    }
}

// The ports and flags that a rule for TCP matches.
fn numbers_with_flags(rule: &Rule) -> Numbers
    ensures { (from to flags : ℕ) → HasNumbers result (Tcp from to flags) ↔ HasFields (rule_facts rule.now) (Tcp from to flags) }
{
    let (ones, zeros) = flags_of_rule(rule.value, rule.mask);
    Numbers {
        first: range_in_rule(rule.first),
        second: range_in_rule(rule.second),
        ones,
        zeros,
    }
}

// The ports, or the types and codes, that a rule matches.
fn numbers_alone(rule: &Rule) -> Numbers
    ensures ports { (from to : ℕ) → HasNumbers result (Ports from to) ↔ HasFields (rule_facts rule.now) (Ports from to) }
    ensures icmp { (kind code : ℕ) → HasNumbers result (Icmp kind code) ↔ HasFields (rule_facts rule.now) (Icmp kind code) }
{
    Numbers {
        first: range_in_rule(rule.first),
        second: range_in_rule(rule.second),
        ones: 0,
        zeros: 0,
    }
}

// The numbers that a rule for one protocol matches in packets that show this.
fn numbers_shown(rule: &Rule, shown: Shown) -> Numbers
    ensures { (fields : Fields) → AreSmall fields → shown_of fields ≡ shown
        → HasNumbers result fields ↔ HasFields (rule_facts rule.now) fields }
{
    match shown {
        Shown::Nothing => all_numbers(),
        Shown::PortPair => numbers_alone(rule),
        Shown::PortsAndFlags => numbers_with_flags(rule),
        Shown::TypeAndCode => numbers_alone(rule),
    }
}

/// The numbers that a rule matches in packets that show this.
pub fn numbers_of(rule: &Rule, shown: Shown) -> Numbers
    ensures any { rule.now.proto ≡ 0 → (fields : Fields) → AreSmall fields → HasNumbers result fields }
    ensures one { rule.now.proto ≢ 0 → (fields : Fields) → AreSmall fields → shown_of fields ≡ shown
        → HasNumbers result fields ↔ HasFields (rule_facts rule.now) fields }
{
    if rule.proto == 0 {
        all_numbers()
    } else {
        numbers_shown(rule, shown)
    }
}
