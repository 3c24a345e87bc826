//! Two who judge the same packets.
ghost use Rattle.std.specs.Prelude.{◌≡◌, IfOk, length};
ghost use Rattle.filter_run.specs.Both.{ArePaired};

use crate::judge::Judge;
use packet_view::Packets;
use std::alloc::{AllocError, Global};

/// Two who judge the same packets, as by a policy, and by the one that is to take its place.
#[derive(Drop)]
pub struct Both<A, B> {
    pub first: A,
    pub second: B,
    pub alloc: Global,
}

// What both said of each packet.
fn paired<V: Copy, U: Copy>(
    alloc: Global,
    ones: &[V],
    others: &[U],
) -> Result<Vec<(V, U)>, AllocError>
    requires { length ones.now ≡ length others.now }
    ensures { IfOk result (λ pairs. ArePaired ones.now others.now pairs.items) }
{
    let mut pairs = Vec::new(alloc);
    'pairing: for i in 0..ones.len() {
        pairs.push((ones[i], others[i]))?;
    }
    Ok(pairs)
}

impl<V: Copy, U: Copy, A: Judge<V>, B: Judge<U>> Judge<(V, U)> for Both<A, B> {
    ghost use Rattle.filter_run.specs.Both.{firsts, seconds};

    ghost became = { λ begun packets said now. A.became begun.first packets (firsts said) now.first × B.became begun.second packets (seconds said) now.second };

    fn judge(&mut self, packets: Packets<'_>) -> Result<Vec<(V, U)>, AllocError> {
        let ones = self.first.judge(packets)?;
        let others = self.second.judge(packets)?;
        paired(self.alloc, &ones, &others)
    }
}
