//! Frames that needn't be plain, where and when they were seen.
ghost use Rattle.std.specs.Prelude.{◌≡◌, ◌<◌};
ghost use Rattle.std.specs.Option.{ForSome};
ghost use Rattle.packet_view.specs.Captures.{packet_facts};
ghost use Rattle.flow_filter.specs.OneThread.{IsFlowLayout, layout_of};
ghost use Rattle.packet_view.specs.Frames.{frame_facts};
ghost use Rattle.flow_dealing.specs.Dealt.{IsOtherOf};
ghost use Rattle.flow_dealing.specs.Dealings;

use crate::hashed_flow::HashedFlow;
use bihash_words::Shape;
use packet_view::{Frame, Packet, view};
use session_state::{Flow, orient};

/// What a packet is whose frame needn't be plain.
#[derive(Clone, Copy)]
pub struct OtherSighting<'a> {
    pub packet: Packet<'a>,
    /// What its frame is where the interface has no own address.
    pub frame: Frame,
    /// The packet's flow.
    pub hashed: HashedFlow,
}

/// The flow of a packet with this frame. `None`: it takes no part in sessions.
#[inline(always)]
pub fn flow_of_frame(frame: &Frame) -> Option<Flow>
    ensures shown { result ≡ Dealings.flow_of_frame (frame_facts frame.now) }
    ensures side { ForSome result (λ f. f.side < 2) }
{
    match frame {
        Frame::Ip(_, tuple) => orient(tuple),
        Frame::NotIp | Frame::Malformed | Frame::Short => None,
    }
}

/// The sighting of a packet.
#[inline(always)]
pub fn see_other<'a, A: Shape, B: Shape>(packet: Packet<'a>) -> OtherSighting<'a>
    requires { IsFlowLayout (layout_of ⟦<A as Shape>⟧ ⟦<B as Shape>⟧) }
    ensures { IsOtherOf (layout_of ⟦<A as Shape>⟧ ⟦<B as Shape>⟧) (packet_facts packet.entry) result }
{
    let frame = view(packet.frame, packet.interface, None);
    OtherSighting {
        packet,
        frame,
        hashed: HashedFlow::of::<A, B>(flow_of_frame(&frame)),
    }
}
