//! The verdict on one packet, by one update at most.
ghost use Rattle.std.specs.Prelude.{Ok};
ghost use Rattle.std.specs.declared.convert.Infallible.{Infallible};
ghost use Rattle.packet_view.specs.Captures.{packet_facts};
ghost use Rattle.packet_view.specs.Frames.{frame_facts};
ghost use Rattle.acl_policy.specs.Policies.{policy_facts};
ghost use Rattle.bihash_table.specs.Tries.{TookByTries};
ghost use Rattle.flow_filter.specs.Filters.{section_in};
ghost use Rattle.flow_filter.specs.InterfaceFilters.{IsReadyAt};
ghost use Rattle.flow_filter.specs.declared.prepared_filter.Filter.{Filter};
ghost use Rattle.flow_filter.specs.Liveness.{IsForeseen};
ghost use Rattle.flow_filter.specs.OneThread.{layout_of};
ghost use Rattle.flow_filter.specs.Readings.{IsSeenAt};
ghost use Rattle.flow_dealing.specs.HashedFlows.{IsHashed};
ghost use Rattle.flow_workers.specs.Calls.{MayAsk, TellsVerdict};
ghost use Rattle.flow_workers.specs.Judging.{TookByOneTry};
ghost use Rattle.flow_workers.specs.inner.PacketPlans.{IsFrameRuling};
ghost use Rattle.flow_workers.specs.inner.ViewedPackets.{TellsViewed};

use crate::packet_plan::PacketPlan;
use crate::session_tables::{Callers, Tables};
use crate::table_update::{HashedFlowKey, update};
use crate::update_tries::{OneTry, Tries, UntilAnswered};
use crate::viewed_packet::ViewedPacket;
use bihash_table::Contended;
use bihash_words::Shape;
use flow_dealing::{HashedFlow, flow_of_frame};
use flow_filter::{Filter, HasReading, InterfaceFilter};
use packet_view::{Frame, Packet, view};
use session_state::{SessionExpiry, Verdict};
use std::marker::Brand;
use std::sync::Wait;

/// The verdict on a packet that was viewed, under what the rules will say of it.
#[inline(always)]
pub fn judge_as<A: Shape, B: Shape, D: HasReading, T: Tries>(
    tries: &T,
    filter: &InterfaceFilter<'_>,
    tables: &Tables<A, B>,
    callers: &mut Callers<A, B>,
    packet: &ViewedPacket<'_>,
) -> Result<Verdict, T::Refusal>
    requires asks { MayAsk tables.now callers.old }
    requires ruling { IsFrameRuling (section_in filter.now) (frame_facts packet.now.frame.now) D.ruling }
    requires lives { IsForeseen filter.now.times packet.now.moment D.is_live }
    requires hashed { IsHashed (layout_of ⟦<A as Shape>⟧ ⟦<B as Shape>⟧) packet.now.hashed.now }
    ensures { TellsViewed T.took filter.now packet.now tables.now callers.old callers.new result }
{
    match PacketPlan::<D>::new(filter, packet) {
        PacketPlan::Settled(verdict) => Ok(verdict),
        PacketPlan::Asks(key, patch) => {
            let expiry = SessionExpiry {
                moment: packet.moment,
                times: filter.times,
            };
            let hashed = HashedFlowKey {
                key: *key,
                hash: packet.hashed.hash,
            };
            match update(tries, tables, callers, hashed, &patch, &expiry) {
                Ok(reply) => Ok(patch.verdict(reply)),
                Err(refusal) => Err(refusal),
            }
        }
    }
}

/// The verdict on a packet. It tries again where another caller's change or lock was met.
pub fn judge<A: Shape, B: Shape, R: Wait>(
    rt: &R,
    filter: &Filter,
    tables: &Tables<A, B>,
    callers: &mut Callers<A, B>,
    packet: &Packet<'_>,
) -> Verdict
    requires { MayAsk tables.now callers.old }
    ensures { TellsVerdict {E = Infallible} TookByTries filter.now packet.now tables.now callers.old callers.new (Ok result) }
{
    let filter = filter.ready(packet.interface);
    let frame = view(packet.frame, packet.interface, filter.own);
    let hashed = HashedFlow::of::<A, B>(flow_of_frame(&frame));
    let packet = ViewedPacket::new(packet.moment, &frame, &hashed);
    let tries = UntilAnswered { rt };
    let Ok(verdict) = judge_as::<A, B, Brand, UntilAnswered<'_, R>>(
        &tries, &filter, tables, callers, &packet,
    );
    verdict
}

/// The verdict on a packet whose frame turned out to be this, by a filter that is ready at its interface, by one try.
/// `Contended`: another caller's change or lock was met.
#[inline(always)]
pub fn try_judge_at<A: Shape, B: Shape>(
    filter: &InterfaceFilter<'_>,
    tables: &Tables<A, B>,
    callers: &mut Callers<A, B>,
    packet: &Packet<'_>,
    frame: &Frame,
) -> Result<Verdict, Contended>
    requires asks { MayAsk tables.now callers.old }
    requires seen { IsSeenAt filter.now.own (packet_facts packet.now) (frame_facts frame.now) }
    ensures { (whole : Filter) → IsReadyAt (policy_facts whole.policy) whole.times packet.now.interface filter.now
        → TellsVerdict TookByOneTry whole packet.now tables.now callers.old callers.new result }
{
    let hashed = HashedFlow::of::<A, B>(flow_of_frame(frame));
    let packet = ViewedPacket::new(packet.moment, frame, &hashed);
    judge_as::<A, B, Brand, OneTry>(&OneTry, filter, tables, callers, &packet)
}

/// The verdict on a packet, by one try. `Contended`: another caller's change or lock was met.
pub fn try_judge<A: Shape, B: Shape>(
    filter: &Filter,
    tables: &Tables<A, B>,
    callers: &mut Callers<A, B>,
    packet: &Packet<'_>,
) -> Result<Verdict, Contended>
    requires { MayAsk tables.now callers.old }
    ensures { TellsVerdict TookByOneTry filter.now packet.now tables.now callers.old callers.new result }
{
    let filter = filter.ready(packet.interface);
    let frame = view(packet.frame, packet.interface, filter.own);
    try_judge_at(&filter, tables, callers, packet, &frame)
}
