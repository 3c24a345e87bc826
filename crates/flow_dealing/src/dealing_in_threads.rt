//! Packets with the workers that judge them, which several threads find at once.
ghost use Rattle.std.specs.Prelude.{◌≤◌, ◌<◌, ◌+◌, ◌^◌, IfOk, length};
ghost use Rattle.packet_view.specs.CheckedCaptures.{remaining};
ghost use Rattle.flow_dealing.specs.Dealt.{AreDealt, AreShapes};

use crate::chunk_jobs::{chunks_ahead, chunks_over};
use crate::dealer::Dealer;
use crate::dealt_chunk::{DealtChunk, DealtRoom};
use crate::tasks_in_threads::run_all;
use bihash_words::Shape;
use packet_view::Packets;
use std::alloc::{AllocError, Global};
use std::thread::Threads;

/// The packets, whose numbers begin with this one, with the workers that judge them, in their order, in chunks. Each is found
/// by a thread of its own, or by this one where no thread can be made. There are as many chunks as workers, but of more than
/// three one less, since another thread may read meanwhile. The lists are those that were kept of earlier packets, as far as
/// there are any.
pub fn deal_packets<'a, A: Shape + Send, B: Shape + Send, R: Threads + Sync>(
    rt: &R,
    alloc: Global,
    dealer: Dealer,
    number: usize,
    packets: Packets<'a>,
    kept: Vec<DealtRoom>,
) -> Result<Vec<DealtChunk<'a>>, AllocError>
where
    A::Key: Send,
    B::Key: Send,
    requires shapes { AreShapes ⟦<A as Shape>⟧ ⟦<B as Shape>⟧ }
    requires some { 1 ≤ dealer.workers }
    requires few { dealer.workers ≤ 16 }
    requires fits { number + length (remaining packets) < 2 ^ 64 }
    ensures { IfOk result (λ chunks. AreDealt ⟦<A as Shape>⟧ ⟦<B as Shape>⟧ dealer number chunks.items (remaining packets.entry)) }
{
    let count = dealer.workers.min(3).max(dealer.workers - 1);
    let ahead = chunks_ahead::<A, B>(alloc, dealer, number, packets, count, kept)?;
    let over = run_all(rt, ahead)?;
    chunks_over(alloc, over)
}
