//! Rows of a column, by the rows at which the bit of a range turns.
ghost use Rattle.std.specs.Prelude.{◌≡◌, ◌≤◌, ◌<◌, ◌*◌, ◌/◌, ◌≢◌, ℕ, Some, length, slice_get};
ghost use Rattle.rule_index.specs.Rows.{AreStarts, bit_in, HasTurns, IsPlace, IsWithin};

use super::interval_starts::place;
use crate::bit_rows::{accumulate, set_bit};

/// Sets the bit of a rule in the row of the interval in which its range begins, and in that after its end.
fn mark(rows: &mut [u64], starts: &[u128], width: usize, rule: usize, range: (u128, u128))
    requires starts { AreStarts starts.now }
    requires rows { length rows.now ≡ length starts.now * width }
    requires rule { rule / 64 < width }
    requires clear { (row : ℕ) → row < length starts.now → bit_in width rows.now row rule ≡ 0 }
    ensures len { length rows.new ≡ length rows.old }
    ensures turns { HasTurns starts.now width rows.new rule range }
    ensures others { (row k : ℕ) → k / 64 < width → k ≢ rule → bit_in width rows.new row k ≡ bit_in width rows.old row k }
{
    set_bit(rows, width, place(starts, range.0), rule);
    let behind = place(starts, range.1) + 1;
    if behind < starts.len() {
        set_bit(rows, width, behind, rule);
    }
}

/// Sets the bits at which each range turns in the rows of intervals, which have none yet.
fn mark_all(rows: &mut [u64], starts: &[u128], width: usize, ranges: &[(u128, u128)])
    requires starts { AreStarts starts.now }
    requires rows { length rows.now ≡ length starts.now * width }
    requires width { length ranges.now ≤ 64 * width }
    requires clear { (row k : ℕ) → bit_in width rows.now row k ≡ 0 }
    ensures len { length rows.new ≡ length rows.old }
    ensures turns { (k : ℕ) (range : ℕ × ℕ) → slice_get ranges.now k ≡ Some range → HasTurns starts.now width rows.new k range }
{
    for (rule, range) in ranges.iter().enumerate() {
        mark(rows, starts, width, rule, *range);
    }
}

/// Gives the row of each interval, which has no bit yet, the bit of each range that may have a number in it.
pub fn fill(rows: &mut [u64], starts: &[u128], width: usize, ranges: &[(u128, u128)])
    requires starts { AreStarts starts.now }
    requires rows { length rows.now ≡ length starts.now * width }
    requires width { 0 < width }
    requires few { length ranges.now ≤ 64 * width }
    requires clear { (row k : ℕ) → bit_in width rows.now row k ≡ 0 }
    ensures len { length rows.new ≡ length rows.old }
    ensures filled { (k row x : ℕ) (range : ℕ × ℕ) → slice_get ranges.now k ≡ Some range → IsWithin range x
        → IsPlace starts.now x row → bit_in width rows.new row k ≡ 1 }
{
    mark_all(rows, starts, width, ranges);
    accumulate(rows, width);
}
