//! The words of a column, 64 ranges after 64 ranges.
ghost use Rattle.std.specs.Prelude.{◌≡◌, ◌≤◌, ◌<◌, ◌+◌, ◌*◌, ◌/◌, ℕ, IfOk, length, slice_index};
ghost use Rattle.acl_policy.specs.Rules.{most_rules};
ghost use Rattle.rule_index.specs.inner.Columns.{AreLaid, FillsBlock};
ghost use Rattle.rule_index.specs.Rows.{AreStarts, row_words};

use super::interval_rows::fill;
use crate::bit_rows::words_for;
use crate::numbered_words::{first_words, lay};
use std::alloc::{AllocError, Global};

/// Where 64 ranges end that begin here.
fn block_end(ranges: usize, from: usize) -> usize
    requires { from ≤ ranges }
    ensures from { from ≤ result }
    ensures within { result ≤ ranges }
    ensures few { result ≤ from + 64 }
    ensures all { (k : ℕ) → k < ranges → k < from + 64 → k < result }
{
    if ranges - from < 64 {
        ranges
    } else {
        from + 64
    }
}

/// A word for each interval: the bits of 64 ranges.
fn block_rows(
    alloc: Global,
    starts: &[u128],
    ranges: &[(u128, u128)],
    block: usize,
) -> Result<Vec<u64>, AllocError>
    requires starts { AreStarts starts.now }
    requires few { length ranges.now ≤ most_rules }
    requires block { block ≤ length ranges.now / 64 }
    ensures len { IfOk result (λ rows. length rows.items ≡ length starts.now) }
    ensures filled { IfOk result (λ rows. FillsBlock starts.now ranges.now block rows.items) }
{
    let from = block * 64;
    let to = block_end(ranges.len(), from);
    let mut rows = Vec::from_elem(alloc, 0u64, starts.len())?;
    fill(&mut rows, starts, 1, &ranges[from..to]);
    Ok(rows)
}

/// Lays the words of all ranges, which have no numbers yet.
pub fn lay_blocks(
    alloc: Global,
    numbers: &mut [u16],
    starts: &[u128],
    ranges: &[(u128, u128)],
) -> Result<Vec<u64>, AllocError>
    requires starts { AreStarts starts.now }
    requires few { length ranges.now ≤ most_rules }
    requires sized { length numbers.now ≡ length starts.now * row_words (length ranges.now) }
    requires clear { (i : ℕ) → slice_index numbers.now i ≡ 0 }
    ensures len { length numbers.new ≡ length numbers.old }
    ensures laid { IfOk result (λ words. AreLaid starts.now ranges.now (row_words (length ranges.now)) numbers.new words.items) }
{
    let width = words_for(ranges.len());
    let mut words = first_words(alloc)?;
    for block in 0..width {
        let rows = block_rows(alloc, starts, ranges, block)?;
        lay(numbers, &mut words, width, block, &rows)?;
    }
    Ok(words)
}
