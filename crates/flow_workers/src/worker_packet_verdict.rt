//! One packet of a worker: what it is, and its verdict, which the worker says.
ghost use Rattle.std.specs.Prelude.{◌+◌, IfOk};
ghost use Rattle.packet_view.specs.Captures.{packet_facts};
ghost use Rattle.flow_workers.specs.inner.Jobs.{HasWorkedOn, MayJudgeOther, MayJudgePacket, MayJudgeSighting, MayJudgeViewed};

use crate::gate::Gate;
use crate::packet_verdict::judge_as;
use crate::update_tries::UntilAnswered;
use crate::viewed_packet::ViewedPacket;
use crate::worker_share::{Batch, Share};
use bihash_words::Shape;
use flow_dealing::{HashedFlow, OtherSighting, PlainSighting, flow_of_frame};
use flow_filter::InterfaceFilter;
use packet_view::{Packet, plain_frame, view};
use std::alloc::AllocError;
use std::marker::Brand;
use std::sync::Wait;

// Judges a packet of the worker, which stands at this place among those of the batch and was viewed, by the filter at its
// interface, and says its verdict.
#[inline(always)]
fn record_verdict<A: Shape, B: Shape, R: Wait, G: Gate>(
    batch: &Batch<'_, '_, '_, A, B, R, G>,
    worker: usize,
    at: usize,
    filter: &InterfaceFilter<'_>,
    packet: &ViewedPacket<'_>,
    share: &mut Share<A, B>,
) -> Result<(), AllocError>
    requires { MayJudgeViewed ⟦<A as Shape>⟧ ⟦<B as Shape>⟧ batch.now worker at filter.now packet.now share.old }
    ensures { IfOk result (λ _. HasWorkedOn ⟦<A as Shape>⟧ ⟦<B as Shape>⟧ batch.now worker at (at + 1) share.old share.new) }
{
    let setup = &batch.setup;
    let number = batch.first + at;
    setup.gate.before(worker, number);
    let callers = &mut share.callers;
    let tries = UntilAnswered { rt: setup.rt };
    let Ok(verdict) = judge_as::<A, B, Brand, UntilAnswered<'_, R>>(
        &tries,
        filter,
        setup.tables,
        callers,
        packet,
    );
    setup.gate.after(worker, number);
    share.said.push(verdict)?;
    Ok(())
}

/// Judges a packet of the worker, which stands at this place among those of the batch, and was seen so.
#[inline]
pub fn judge_other<A: Shape, B: Shape, R: Wait, G: Gate>(
    batch: &Batch<'_, '_, '_, A, B, R, G>,
    worker: usize,
    at: usize,
    seen: &OtherSighting<'_>,
    share: &mut Share<A, B>,
) -> Result<(), AllocError>
    requires { MayJudgeOther ⟦<A as Shape>⟧ ⟦<B as Shape>⟧ batch.now worker at seen.now share.old }
    ensures { IfOk result (λ _. HasWorkedOn ⟦<A as Shape>⟧ ⟦<B as Shape>⟧ batch.now worker at (at + 1) share.old share.new) }
{
    let packet = seen.packet;
    let filter = batch.setup.filter.at(packet.interface);
    let frame = seen.frame.at(packet.frame, packet.interface, filter.own);
    let viewed = ViewedPacket::new(packet.moment, &frame, &seen.hashed);
    record_verdict(batch, worker, at, filter, &viewed, share)
}

/// Judges a packet of the worker, which stands at this place among those of the batch, by the view of its frame. Few frames
/// aren't plain, and the path of plain ones is shorter without this.
#[inline(never)]
pub fn judge_by_view<A: Shape, B: Shape, R: Wait, G: Gate>(
    batch: &Batch<'_, '_, '_, A, B, R, G>,
    worker: usize,
    at: usize,
    packet: &Packet<'_>,
    share: &mut Share<A, B>,
) -> Result<(), AllocError>
    requires { MayJudgePacket ⟦<A as Shape>⟧ ⟦<B as Shape>⟧ batch.now worker at (packet_facts packet.now) share.old }
    ensures { IfOk result (λ _. HasWorkedOn ⟦<A as Shape>⟧ ⟦<B as Shape>⟧ batch.now worker at (at + 1) share.old share.new) }
{
    let filter = batch.setup.filter.at(packet.interface);
    let frame = view(packet.frame, packet.interface, filter.own);
    let hashed = HashedFlow::of::<A, B>(flow_of_frame(&frame));
    let viewed = ViewedPacket::new(packet.moment, &frame, &hashed);
    record_verdict(batch, worker, at, filter, &viewed, share)
}

/// Judges a packet of the worker, which stands at this place among those of the batch, and whose plain frame was seen so. All
/// that it does is within the loops in which it is called: as a call it took a fifth more instructions.
#[inline(always)]
pub fn judge_sighting<A: Shape, B: Shape, R: Wait, G: Gate>(
    batch: &Batch<'_, '_, '_, A, B, R, G>,
    worker: usize,
    at: usize,
    seen: &PlainSighting,
    share: &mut Share<A, B>,
) -> Result<(), AllocError>
    requires { MayJudgeSighting ⟦<A as Shape>⟧ ⟦<B as Shape>⟧ batch.now worker at seen.now share.old }
    ensures { IfOk result (λ _. HasWorkedOn ⟦<A as Shape>⟧ ⟦<B as Shape>⟧ batch.now worker at (at + 1) share.old share.new) }
{
    let filter = batch.setup.filter.at(seen.interface);
    let frame = seen.frame().at(seen.interface, filter.own);
    let hashed = seen.hashed_flow();
    let viewed = ViewedPacket::new(seen.moment, &frame, &hashed);
    record_verdict(batch, worker, at, filter, &viewed, share)
}

/// Judges a packet of the worker, which stands at this place among those of the batch, and says its verdict. Nobody dealt it, so
/// that nothing of it need be kept.
#[inline(always)]
pub fn judge_packet<A: Shape, B: Shape, R: Wait, G: Gate>(
    batch: &Batch<'_, '_, '_, A, B, R, G>,
    worker: usize,
    at: usize,
    packet: &Packet<'_>,
    share: &mut Share<A, B>,
) -> Result<(), AllocError>
    requires { MayJudgePacket ⟦<A as Shape>⟧ ⟦<B as Shape>⟧ batch.now worker at (packet_facts packet.now) share.old }
    ensures { IfOk result (λ _. HasWorkedOn ⟦<A as Shape>⟧ ⟦<B as Shape>⟧ batch.now worker at (at + 1) share.old share.new) }
{
    let filter = batch.setup.filter.at(packet.interface);
    let Some(frame) = plain_frame(packet.frame, packet.interface, filter.own) else {
        return judge_by_view(batch, worker, at, packet, share);
    };
    let hashed = HashedFlow::of::<A, B>(flow_of_frame(&frame));
    let viewed = ViewedPacket::new(packet.moment, &frame, &hashed);
    record_verdict(batch, worker, at, filter, &viewed, share)
}
