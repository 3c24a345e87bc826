//! Where the intervals of a column begin.
ghost use Rattle.std.specs.Prelude.{◌≤◌, ◌<◌, ◌+◌, ◌*◌, IfOk, length};
ghost use Rattle.rule_index.specs.Rows.{AreStarts, IsPlace};
ghost use Rattle.rule_index.specs.inner.Columns.{most_intervals};

use std::alloc::{AllocError, Global};

/// The most intervals of a column. Where ranges have more bounds, intervals that follow each other are taken together, so that a
/// column of the most rules takes less than a mebibyte.
const MOST_INTERVALS: usize = 5000;

/// The last interval that begins at a number or below it.
pub fn place(starts: &[u128], x: u128) -> usize
    requires { AreStarts starts.now }
    ensures { IsPlace starts.now x result }
{
    let mut row = 0;
    let mut left = starts.len();
    while left > 1 {
        let half = left / 2;
        if starts[row + half] <= x {
            row += half;
        }
        left -= half;
    }
    row
}

/// An interval begins at 0, and where a range begins or after its end: at each of these bounds where they are few.
pub fn starts_of(alloc: Global, ranges: &[(u128, u128)]) -> Result<Vec<u128>, AllocError>
    ensures starts { IfOk result (λ starts. AreStarts starts.items) }
    ensures few { IfOk result (λ starts. length starts.items ≤ most_intervals) }
{
    let mut bounds = Vec::new(alloc);
    for range in ranges {
        bounds.push(range.0)?;
        if range.1 < u128::MAX {
            bounds.push(range.1 + 1)?;
        }
    }
    bounds.sort_unstable();
    bounds.dedup();
    thin(alloc, &bounds)
}

/// The starts of intervals: 0, and of the bounds each where they are few, else each second one, or third one, and so on.
fn thin(alloc: Global, bounds: &[u128]) -> Result<Vec<u128>, AllocError>
    ensures starts { IfOk result (λ starts. AreStarts starts.items) }
    ensures few { IfOk result (λ starts. length starts.items ≤ most_intervals) }
{
    let step = bounds.len() / MOST_INTERVALS + 1;
    let mut starts = Vec::new(alloc);
    starts.push(0)?;
    let mut last = 0;
    for k in 0..bounds.len() / step {
        let bound = bounds[k * step];
        if bound <= last {
            continue;
        }
        starts.push(bound)?;
        last = bound;
    }
    Ok(starts)
}
