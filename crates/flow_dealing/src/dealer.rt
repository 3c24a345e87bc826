//! A dealer hands each packet to its worker.
ghost use Rattle.std.specs.Prelude.{◌<◌};
ghost use Rattle.packet_view.specs.Captures.{PacketFacts};
ghost use Rattle.flow_filter.specs.OneThread.{layout_of};
ghost use Rattle.flow_dealing.specs.HashedFlows.{IsHashed};
ghost use Rattle.flow_dealing.specs.Dealt.{AreShapes, HasFlow, IsDealtTo};

use crate::hashed_flow::HashedFlow;
use crate::worker_of_flow::{Dealing, worker_of};
use bihash_words::Shape;

/// What packets are dealt by.
#[derive(Clone, Copy)]
pub struct Dealer {
    pub dealing: Dealing,
    pub workers: usize,
}

/// The worker to whom a packet with this number and this flow is dealt, both counted from 0.
#[inline(always)]
pub fn worker_of_packet<A: Shape, B: Shape>(
    dealer: &Dealer,
    number: usize,
    hashed: &HashedFlow,
) -> usize
    requires shapes { AreShapes ⟦<A as Shape>⟧ ⟦<B as Shape>⟧ }
    requires some { 0 < dealer.now.workers }
    requires hashed { IsHashed (layout_of ⟦<A as Shape>⟧ ⟦<B as Shape>⟧) hashed.now }
    ensures dealt { (packet : PacketFacts) → HasFlow packet hashed.now.flow
        → IsDealtTo ⟦<A as Shape>⟧ ⟦<B as Shape>⟧ dealer.now number packet result }
    ensures one { result < dealer.now.workers }
{
    worker_of::<A, B>(dealer.dealing, dealer.workers, number, hashed)
}
