//! Rules that take all packets of another: field by field, each value that the other lets through is let through.
ghost use Rattle.std.specs.Prelude.{◌≡◌, ◌≤◌, ◌<◌, ◌↔◌, ℕ, IsTrue, bit_and};
ghost use Rattle.packet_view.specs.Addresses.{address_limit};
ghost use Rattle.packet_view.specs.declared.tuple.Fields.{Fields};
ghost use Rattle.acl_policy.specs.Matching.{HasFields, HoldsPrefix, IsIn};
ghost use Rattle.acl_policy.specs.Rules.{rule_facts};
ghost use Rattle.acl_policy.specs.Widths.{width};
ghost use Rattle.policy_check.specs.Remarks.{Covers, CoversFields, CoversFlags, CoversPrefix, CoversRange, TakesAll};

use acl_policy::{Rule, has_prefix};
use packet_view::Family;

// Whether the prefix of a rule that may shadow a later one has each address of the later one's.
#[tactic(auto, using(crate::proofs::ShadowLemmas::prefix_taken))]
fn takes_prefix(family: Family, earlier: (u128, u8), later: (u128, u8)) -> bool
    requires length { later.1 ≤ width family }
    requires earlier_fits { earlier.0 < address_limit family }
    requires later_fits { later.0 < address_limit family }
    ensures found { IsTrue result ↔ CoversPrefix family earlier later }
    ensures taken { IsTrue result → (address : ℕ) → HoldsPrefix family later address → HoldsPrefix family earlier address }
{
    earlier.1 <= later.1 && has_prefix(family, earlier, later.0)
}

// Whether the range of a rule that may shadow a later one has each number of the later one's.
fn takes_range(earlier: (u16, u16), later: (u16, u16)) -> bool
    ensures found { IsTrue result ↔ CoversRange earlier later }
    ensures taken { IsTrue result → (n : ℕ) → IsIn later n → IsIn earlier n }
{
    earlier.0 <= later.0 && later.1 <= earlier.1
}

// Whether a rule that may shadow a later one is found to take all TCP flags that the later one takes.
#[tactic(auto, using(crate::proofs::ShadowLemmas::flags_taken))]
fn takes_flags(earlier: &Rule, later: &Rule) -> bool
    ensures found { IsTrue result ↔ CoversFlags (rule_facts earlier.now) (rule_facts later.now) }
    ensures taken { IsTrue result → (flags : ℕ) → bit_and flags later.now.mask ≡ later.now.value → bit_and flags earlier.now.mask ≡ earlier.now.value }
{
    later.mask & earlier.mask == earlier.mask && later.value & earlier.mask == earlier.value
}

// Whether a rule that may shadow a later one is found to take all ports, types, codes and flags of that one.
fn takes_fields(earlier: &Rule, later: &Rule) -> bool
    ensures found { IsTrue result ↔ CoversFields (rule_facts earlier.now) (rule_facts later.now) }
    ensures taken { IsTrue result → (fields : Fields) → HasFields (rule_facts later.now) fields → HasFields (rule_facts earlier.now) fields }
{
    takes_range(earlier.first, later.first)
        && takes_range(earlier.second, later.second)
        && takes_flags(earlier, later)
}

/// Whether a rule covers a later one: then it matches each packet that the later one matches.
pub fn takes_all(earlier: &Rule, later: &Rule) -> bool
    ensures found { IsTrue result ↔ Covers (rule_facts earlier.now) (rule_facts later.now) }
    ensures taken { IsTrue result → TakesAll (rule_facts earlier.now) (rule_facts later.now) }
{
    earlier.family == later.family
        && takes_prefix(earlier.family, earlier.source, later.source)
        && takes_prefix(earlier.family, earlier.dest, later.dest)
        && (earlier.proto == 0 || earlier.proto == later.proto && takes_fields(earlier, later))
}
