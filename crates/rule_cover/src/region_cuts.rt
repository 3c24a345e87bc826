//! How a region meets another: they are apart, or it lies in the other, or else it is cut in two.
ghost use Rattle.std.specs.Prelude.{◌≡◌, ◌↔◌, ℕ, IfSome, IsTrue, None, false};
ghost use Rattle.packet_view.specs.Tuples.{TupleFacts};
ghost use Rattle.packet_view.specs.declared.tuple.Fields.{Fields};
ghost use Rattle.acl_policy.specs.Matching.{IsIn};
ghost use Rattle.rule_cover.specs.inner.Regions.{AreNumbersCut, HasNumbers, IsCut, IsInRegion, IsRangeCut};

use crate::flag_cuts::{are_flags_apart, cut_flags};
use crate::region::{Numbers, Region};

// Whether no number is in both ranges of two regions.
fn are_apart(one: (u128, u128), two: (u128, u128)) -> bool
    ensures { IsTrue result → (n : ℕ) → IsIn one n → IsIn two n → ⊥ }
{
    one.1 < two.0 || two.1 < one.0
}

// Whether no packet has the numbers of both regions.
fn are_numbers_apart(one: &Numbers, two: &Numbers) -> bool
    ensures { IsTrue result → (fields : Fields) → HasNumbers one.now fields → HasNumbers two.now fields → ⊥ }
{
    if are_apart(one.first, two.first) {
        return true;
    }
    if are_apart(one.second, two.second) {
        return true;
    }
    are_flags_apart(one, two)
}

/// Whether no packet is in both regions.
pub fn is_apart(one: &Region, two: &Region) -> bool
    ensures yes { IsTrue result → (tuple : TupleFacts) → IsInRegion one.now tuple → IsInRegion two.now tuple → ⊥ }
    ensures no { result ≡ false → one.now.family ≡ two.now.family }
{
    if one.family != two.family {
        return true;
    }
    if are_apart(one.proto, two.proto) {
        return true;
    }
    if are_apart(one.dest, two.dest) {
        return true;
    }
    if are_apart(one.source, two.source) {
        return true;
    }
    are_numbers_apart(&one.numbers, &two.numbers)
}

// The numbers of both ranges of two regions.
fn both_ranges(one: (u128, u128), two: (u128, u128)) -> (u128, u128)
    ensures { (n : ℕ) → IsIn result n ↔ (IsIn one n × IsIn two n) }
{
    (one.0.max(two.0), one.1.min(two.1))
}

// The numbers of both regions.
fn both_numbers(one: &Numbers, two: &Numbers) -> Numbers
    ensures { (fields : Fields) → HasNumbers result fields ↔ (HasNumbers one.now fields × HasNumbers two.now fields) }
{
    Numbers {
        first: both_ranges(one.first, two.first),
        second: both_ranges(one.second, two.second),
        ones: one.ones | two.ones,
        zeros: one.zeros | two.zeros,
    }
}

/// The packets of both regions, where these are of one family and show the same.
pub fn both(one: &Region, two: &Region) -> Region
    ensures { one.now.family ≡ two.now.family → one.now.shown ≡ two.now.shown → (tuple : TupleFacts)
        → IsInRegion result tuple ↔ (IsInRegion one.now tuple × IsInRegion two.now tuple) }
{
    Region {
        family: one.family,
        shown: one.shown,
        source: both_ranges(one.source, two.source),
        dest: both_ranges(one.dest, two.dest),
        proto: both_ranges(one.proto, two.proto),
        numbers: both_numbers(&one.numbers, &two.numbers),
    }
}

// Cuts a range of a region at an end of another's, where a part of it is outside of that; the part outside stands first.
#[tactic(auto, using(crate::proofs::RangeLemmas::cut_below, crate::proofs::RangeLemmas::cut_above))]
fn cut_range(range: (u128, u128), other: (u128, u128)) -> Option<((u128, u128), (u128, u128))>
    ensures some { IfSome result (λ cut. IsRangeCut range other cut.0 cut.1) }
    ensures none { result ≡ None → (n : ℕ) → IsIn range n → IsIn other n }
{
    if range.0 < other.0 {
        let end = range.1.min(other.0 - 1);
        return Some(((range.0, end), (other.0, range.1)));
    }
    if other.1 < range.1 {
        let begin = range.0.max(other.1 + 1);
        return Some(((begin, range.1), (range.0, other.1)));
    }
    None
}

// Cuts the numbers of a region by those of another, where a part of them is outside of these; that part stands first.
fn cut_numbers(numbers: &Numbers, other: &Numbers) -> Option<(Numbers, Numbers)>
    ensures some { IfSome result (λ cut. AreNumbersCut numbers.now other.now cut.0 cut.1) }
    ensures none { result ≡ None → (fields : Fields) → HasNumbers numbers.now fields → HasNumbers other.now fields }
{
    if let Some((outside, first)) = cut_range(numbers.first, other.first) {
        return Some((
            Numbers {
                first: outside,
                ..*numbers
            },
            Numbers { first, ..*numbers },
        ));
    }
    if let Some((outside, second)) = cut_range(numbers.second, other.second) {
        return Some((
            Numbers {
                second: outside,
                ..*numbers
            },
            Numbers { second, ..*numbers },
        ));
    }
    cut_flags(numbers, other)
}

/// Cuts a region by another, where a part of it is outside of that; the part outside stands first.
pub fn cut(region: &Region, other: &Region) -> Option<(Region, Region)>
    ensures some { IfSome result (λ cut. IsCut region.now other.now cut.0 cut.1) }
    ensures none { result ≡ None → region.now.family ≡ other.now.family → region.now.shown ≡ other.now.shown
        → (tuple : TupleFacts) → IsInRegion region.now tuple → IsInRegion other.now tuple }
{
    if let Some((outside, proto)) = cut_range(region.proto, other.proto) {
        return Some((
            Region {
                proto: outside,
                ..*region
            },
            Region { proto, ..*region },
        ));
    }
    if let Some((outside, source)) = cut_range(region.source, other.source) {
        return Some((
            Region {
                source: outside,
                ..*region
            },
            Region { source, ..*region },
        ));
    }
    if let Some((outside, dest)) = cut_range(region.dest, other.dest) {
        return Some((
            Region {
                dest: outside,
                ..*region
            },
            Region { dest, ..*region },
        ));
    }
    if let Some((outside, numbers)) = cut_numbers(&region.numbers, &other.numbers) {
        return Some((
            Region {
                numbers: outside,
                ..*region
            },
            Region { numbers, ..*region },
        ));
    }
    None
}
