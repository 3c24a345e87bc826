//! The shares of all workers, taken apart.
ghost use Rattle.std.specs.Prelude.{IfOk};
ghost use Rattle.flow_workers.specs.inner.WorkerResults.{AreResultsOf, HasAdded};

use crate::session_tables::Callers;
use crate::worker_share::{Share, WorkerResults};
use bihash_words::Shape;
use std::alloc::{AllocError, Global};

// The results with those of one more worker.
fn add_share<A: Shape, B: Shape>(
    results: &mut WorkerResults<A, B>,
    share: Share<A, B>,
) -> Result<(), AllocError>
    ensures { IfOk result (λ _. HasAdded share results.old results.new) }
{
    let Share { callers, said, .. } = share;
    let Callers { four, six } = callers;
    results.four.push(four)?;
    results.six.push(six)?;
    results.said.push(said)?;
    Ok(())
}

/// The workers' results, list by list.
pub fn results_of<A: Shape, B: Shape>(
    alloc: Global,
    shares: Vec<Share<A, B>>,
) -> Result<WorkerResults<A, B>, AllocError>
    ensures { IfOk result (AreResultsOf shares.items) }
{
    let mut results = WorkerResults {
        four: Vec::new(alloc),
        six: Vec::new(alloc),
        said: Vec::new(alloc),
    };
    for share in shares {
        add_share(&mut results, share)?;
    }
    Ok(results)
}
