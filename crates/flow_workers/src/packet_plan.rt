//! What a packet comes to before it asks a table.

use crate::viewed_packet::ViewedPacket;
use flow_filter::{
    HasReading, InterfaceFilter, LazyPatch, PacketFlow, tuple_copy, verdict_of_rules,
};
use packet_view::Frame;
use session_state::{FlowKey, Verdict};

/// What a packet comes to before it asks a table.
#[derive(Drop)]
pub enum PacketPlan<'a, D: HasReading> {
    /// The packet takes no part in sessions.
    Settled(Verdict),
    /// The update that decides it.
    Asks(&'a FlowKey, LazyPatch<'a, D>),
}

impl<'a, D: HasReading> PacketPlan<'a, D> {
    ghost use Rattle.packet_view.specs.Frames.{frame_facts};
    ghost use Rattle.flow_filter.specs.Filters.{section_in};
    ghost use Rattle.flow_filter.specs.Liveness.{IsForeseen};
    ghost use Rattle.flow_workers.specs.inner.PacketPlans.{IsPacketPlan, IsFrameRuling, reading_with};

    /// The rules are asked here only where the packet takes no part in sessions.
    #[inline(always)]
    pub fn new(filter: &'a InterfaceFilter<'a>, packet: &ViewedPacket<'a>) -> PacketPlan<'a, D>
        requires ruling { IsFrameRuling (section_in filter.now) (frame_facts packet.now.frame.now) D.ruling }
        requires lives { IsForeseen filter.now.times packet.now.moment D.is_live }
        ensures { IsPacketPlan ⟦<D as HasReading>⟧ filter.now.times
            (reading_with packet.now.moment (frame_facts packet.now.frame.now) D.ruling) result }
    {
        let frame = packet.frame;
        match frame {
            Frame::NotIp => PacketPlan::Settled(Verdict::NotIp),
            Frame::Malformed => PacketPlan::Settled(Verdict::Malformed),
            Frame::Short => PacketPlan::Settled(Verdict::Short),
            Frame::Ip(direction, tuple) => {
                let Some(flow) = &packet.hashed.flow else {
                    let ruling = filter.rules_of(*direction).first_match(&tuple_copy(tuple));
                    return PacketPlan::Settled(verdict_of_rules(ruling));
                };
                let asking = PacketFlow {
                    moment: packet.moment,
                    direction: *direction,
                    tuple,
                    flow,
                };
                PacketPlan::Asks(&flow.key, LazyPatch::new(filter, asking))
            }
        }
    }
}
