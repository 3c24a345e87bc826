//! How the flags of two regions meet.
ghost use Rattle.std.specs.Prelude.{◌≡◌, ◌≤◌, ◌<◌, ℕ, IfSome, IsTrue, None};
ghost use Rattle.std.specs.Int.{bit_at};
ghost use Rattle.rule_cover.specs.inner.Regions.{AreByFlag, AreNumbersCut, HasFlags};

use crate::region::Numbers;

/// Whether no flags are those of both regions.
pub fn are_flags_apart(one: &Numbers, two: &Numbers) -> bool
    ensures { IsTrue result → (flags : ℕ) → HasFlags one.now.ones one.now.zeros flags → HasFlags two.now.ones two.now.zeros flags → ⊥ }
{
    if one.ones & two.zeros != 0 {
        return true;
    }
    if two.ones & one.zeros != 0 {
        return true;
    }
    false
}

// The first bit of some flags that others lack, by its place.
fn flag_lacked(flags: u8, others: u8) -> Option<u8>
    ensures some { IfSome result (λ i. (i < 8) × (bit_at flags i ≡ 1)) }
    ensures none { result ≡ None → (i : ℕ) → bit_at flags i ≤ bit_at others i }
{
    for i in 0..8u8 {
        if flags >> i & 1 > others >> i & 1 {
            return Some(i);
        }
    }
    None
}

// Cuts the numbers of a region by a flag, which is a bit: those without it, and those with it.
fn cut_by_flag(numbers: &Numbers, flag: u8) -> (Numbers, Numbers)
    requires { flag < 8 }
    ensures { AreByFlag flag numbers.now result.0 result.1 }
{
    let bit = 1u8 << flag;
    let lacking = Numbers {
        zeros: numbers.zeros | bit,
        ..*numbers
    };
    let having = Numbers {
        ones: numbers.ones | bit,
        ..*numbers
    };
    (lacking, having)
}

/// Cuts the numbers of a region by a flag that another's have or haven't, where they don't say so; the part outside of the
/// other stands first.
pub fn cut_flags(numbers: &Numbers, other: &Numbers) -> Option<(Numbers, Numbers)>
    ensures some { IfSome result (λ cut. AreNumbersCut numbers.now other.now cut.0 cut.1) }
    ensures none { result ≡ None → (flags : ℕ) → HasFlags numbers.now.ones numbers.now.zeros flags
        → HasFlags other.now.ones other.now.zeros flags }
{
    if let Some(flag) = flag_lacked(other.ones, numbers.ones) {
        return Some(cut_by_flag(numbers, flag));
    }
    if let Some(flag) = flag_lacked(other.zeros, numbers.zeros) {
        let (lacking, having) = cut_by_flag(numbers, flag);
        return Some((having, lacking));
    }
    None
}
