//! The packets that a rule matches, as regions.
ghost use Rattle.std.specs.Prelude.{◌≡◌, ◌≤◌, ◌<◌, ◌↔◌, ◌⊎◌, ◌/◌, ◌^◌, ℕ};
ghost use Rattle.packet_view.specs.Addresses.{address_limit};
ghost use Rattle.packet_view.specs.Tuples.{TupleFacts};
ghost use Rattle.acl_policy.specs.Matching.{HoldsPrefix, IsIn, Matches};
ghost use Rattle.acl_policy.specs.Rules.{rule_facts};
ghost use Rattle.acl_policy.specs.Widths.{width};
ghost use Rattle.rule_cover.specs.Covers.{IsPacket};
ghost use Rattle.rule_cover.specs.inner.Regions.{IsInRegion, shown_of};

use crate::numbers_of_rule::numbers_of;
use crate::region::{Region, Shown};
use acl_policy::{Rule, width_of};
use packet_view::Family;

// The addresses that have the bits of a rule's address, but for so many behind them.
fn range_of_bits(network: u128, behind: u32) -> (u128, u128)
    requires { behind < 128 }
    ensures { (address : ℕ) → address < 2 ^ 128 → IsIn result address ↔ (network / 2 ^ behind ≡ address / 2 ^ behind) }
{
    let size = 1u128 << behind;
    let low = network - network % size;
    (low, low.saturating_add(size - 1))
}

// The addresses that begin as a prefix of a rule does, as a range.
fn range_of_prefix(family: Family, prefix: (u128, u8)) -> (u128, u128)
    requires length { prefix.1 ≤ width family }
    requires fits { prefix.0 < address_limit family }
    ensures { (address : ℕ) → address < address_limit family → IsIn result address ↔ HoldsPrefix family prefix address }
{
    let behind = u32::from(width_of(family) - prefix.1);
    if behind == 128 {
        (0, u128::MAX)
    } else {
        range_of_bits(prefix.0, behind)
    }
}

// The protocols that a rule matches, as a range.
fn range_of_protocol(proto: u8) -> (u128, u128)
    ensures { (n : ℕ) → n < 2 ^ 8 → IsIn result n ↔ ((proto ≡ 0) ⊎ (proto ≡ n)) }
{
    if proto == 0 {
        (0, 255)
    } else {
        (u128::from(proto), u128::from(proto))
    }
}

/// Of the packets that show this, those that the rule matches.
pub fn region_of(rule: &Rule, shown: Shown) -> Region
    ensures shown { result.shown ≡ shown }
    ensures region { (tuple : TupleFacts) → IsPacket tuple
        → IsInRegion result tuple ↔ (Matches (rule_facts rule.now) tuple × (shown_of tuple.fields ≡ shown)) }
{
    Region {
        family: rule.family,
        shown,
        source: range_of_prefix(rule.family, rule.source),
        dest: range_of_prefix(rule.family, rule.dest),
        proto: range_of_protocol(rule.proto),
        numbers: numbers_of(rule, shown),
    }
}
