//! The first callers split among new workers, a share for each.
ghost use Rattle.std.specs.Prelude.{◌≡◌, [], IfOk};
ghost use Rattle.flow_workers.specs.inner.AgeingTimes.{first_due};
ghost use Rattle.flow_workers.specs.inner.Shares.{AreSplit, MaySplit};

use crate::ageing_clock::AgeingClock;
use crate::session_tables::{Callers, Tables};
use crate::worker_callers::split_both;
use crate::worker_share::Share;
use bihash_words::Shape;
use std::alloc::{AllocError, Global};
use std::sync::Wait;

// A new one among workers: its share with these callers, which judged nothing.
fn unused_share<A: Shape, B: Shape>(
    alloc: Global,
    callers: Callers<A, B>,
    ages: bool,
) -> Share<A, B>
    ensures callers { result.callers ≡ callers }
    ensures silent { result.said.items ≡ [] }
    ensures due { result.clock.due ≡ first_due ages }
{
    Share {
        callers,
        said: Vec::new(alloc),
        clock: AgeingClock::new(ages),
    }
}

/// The shares of so many new workers, each with callers of its own. A worker keeps the callers that were split, and the
/// new ones are split on: so the workers' numbers are in the order of their turns. Each knows whether it is to age.
pub fn split_shares<A: Shape, B: Shape, R: Wait>(
    rt: &R,
    alloc: Global,
    tables: &Tables<A, B>,
    callers: Callers<A, B>,
    workers: usize,
    ages: bool,
) -> Result<Vec<Share<A, B>>, AllocError>
    requires { MaySplit tables.now callers workers }
    ensures { IfOk result (λ v. AreSplit tables.now workers ages v.items) }
{
    let mut left = callers;
    let mut shares = Vec::new(alloc);
    for _ in 1..workers {
        let (own, next) = split_both(rt, alloc, tables, left)?;
        left = next;
        shares.push(unused_share(alloc, own, ages))?;
    }
    shares.push(unused_share(alloc, left, ages))?;
    Ok(shares)
}
