//! The verdicts of all workers, in the order of the file.
ghost use Rattle.std.specs.Prelude.{IfOk};
ghost use Rattle.flow_workers.specs.inner.Merges.{AreAllVerdicts, AreMerged, CanMerge, HaveLetGo, said_in_shares};

use crate::worker_share::Share;
use bihash_words::Shape;
use session_state::Verdict;
use std::alloc::AllocError;

/// The most workers.
const MOST_WORKERS: usize = 16;

/// The verdicts on the first packets, and how many of those that are in each worker's share are among them.
#[derive(Drop)]
pub struct VerdictMerge {
    pub verdicts: Vec<Verdict>,
    pub next: [usize; MOST_WORKERS],
}

impl VerdictMerge {
    ghost use Rattle.std.specs.Prelude.{IfOk};
    ghost use Rattle.flow_workers.specs.inner.Merges.{CanPlace, CanPlaceNext, HasPlaced, HasPlacedNext, said_in_shares};

    /// Places the verdict on the next packet: the next one of its worker.
    fn place_next<A: Shape, B: Shape>(
        &mut self,
        shares: &[Share<A, B>],
        worker: usize,
    ) -> Result<(), AllocError>
        requires { CanPlaceNext (said_in_shares shares.now) self.old worker }
        ensures { IfOk result (λ _. HasPlacedNext (said_in_shares shares.now) self.old worker self.new) }
    {
        let at = self.next[worker];
        let said = &shares[worker].said;
        self.verdicts.push(said[at])?;
        self.next[worker] = at + 1;
        Ok(())
    }

    /// Places the verdicts on the packets of these workers.
    fn place<A: Shape, B: Shape>(
        &mut self,
        judges: &[u8],
        shares: &[Share<A, B>],
    ) -> Result<(), AllocError>
        requires { CanPlace (said_in_shares shares.now) judges.now self.old }
        ensures { IfOk result (λ _. HasPlaced (said_in_shares shares.now) judges.now self.old self.new) }
    {
        'packets: for judge in judges {
            self.place_next(shares, *judge as usize)?;
        }
        Ok(())
    }
}

/// The verdicts on all packets so far: those on the packets before a batch, and those on the batch's packets, each of which
/// has its worker among these.
pub fn place_verdicts<A: Shape, B: Shape>(
    before: Vec<Verdict>,
    judges: &[u8],
    shares: &[Share<A, B>],
) -> Result<Vec<Verdict>, AllocError>
    requires { CanMerge (said_in_shares shares.now) judges.now before }
    ensures { IfOk result (λ verdicts. AreMerged (said_in_shares shares.now) judges.now before verdicts.items) }
{
    let mut placed = VerdictMerge {
        verdicts: before,
        next: [0; MOST_WORKERS],
    };
    placed.place(judges, shares)?;
    Ok(placed.verdicts)
}

/// The shares keep what their workers said no longer.
pub fn let_go_merged<A: Shape, B: Shape>(shares: &mut Vec<Share<A, B>>)
    ensures { HaveLetGo shares.old.items shares.new.items }
{
    for worker in 0..shares.len() {
        shares[worker].said.clear();
    }
}

/// The verdicts on all packets: what was merged, where several workers said it; else what the only one said.
pub fn all_verdicts(merged: Vec<Verdict>, mut said: Vec<Vec<Verdict>>) -> Vec<Verdict>
    ensures { AreAllVerdicts merged.items said.items result.items }
{
    if said.len() > 1 {
        return merged;
    }
    match said.pop() {
        Some(only) => only,
        None => merged,
    }
}
