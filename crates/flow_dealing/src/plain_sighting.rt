//! Plain frames, where and when they were seen.
ghost use Rattle.std.specs.Prelude.{◌≡◌, IfSome};
ghost use Rattle.packet_view.specs.Captures.{packet_facts};
ghost use Rattle.flow_filter.specs.OneThread.{IsFlowLayout, layout_of};
ghost use Rattle.flow_dealing.specs.Dealt.{IsSightingOf};

use crate::hashed_flow::{HashedFlow, key_hash};
use bihash_words::Shape;
use packet_view::{Packet, PlainFrame, read_plain_frame};
use session_state::{FlowKey, PlainFlow, plain_flow};

/// What a packet with a plain frame is: all that judging asks, so that nobody reads its bytes again. The key of its flow says
/// what addresses, ports and protocol would.
#[derive(Clone, Copy)]
pub struct PlainSighting {
    /// The words of the flow's key.
    pub key: [u64; 2],
    /// The key's hash in the table of IPv4.
    pub hash: u64,
    /// The number of the address that the frame comes from.
    pub sender: u64,
    /// In seconds.
    pub moment: u32,
    /// The number of the interface.
    pub interface: u8,
    /// The sender's side of the flow.
    pub side: u8,
    /// The flags of TCP; 0 for UDP.
    pub flags: u8,
}

impl PlainSighting {
    ghost use Rattle.std.specs.Prelude.{◌≡◌, Some};
    ghost use Rattle.session_state.specs.PlainFlows.{flow_in};
    ghost use Rattle.flow_dealing.specs.Dealt.{frame_in, plain_flow_in};

    // The packet's place in its flow.
    #[inline(always)]
    fn flow(&self) -> PlainFlow
        ensures { result ≡ plain_flow_in self.now }
    {
        PlainFlow {
            key: self.key,
            side: self.side,
        }
    }

    /// The packet's flow with its hash.
    #[inline(always)]
    pub fn hashed_flow(&self) -> HashedFlow
        ensures flow { result.flow ≡ Some (flow_in (plain_flow_in self.now)) }
        ensures hash { result.hash ≡ self.now.hash }
    {
        HashedFlow {
            flow: Some(self.flow().flow()),
            hash: self.hash,
        }
    }

    /// The frame, wherever it is seen.
    #[inline(always)]
    pub fn frame(&self) -> PlainFrame
        ensures { result ≡ frame_in self.now }
    {
        PlainFrame {
            packet: self.flow().packet(self.flags),
            sender: self.sender,
        }
    }
}

/// The sighting of a packet with a plain frame. `None` says nothing of the packet.
#[inline(always)]
pub fn see_plain<A: Shape, B: Shape>(packet: &Packet<'_>) -> Option<PlainSighting>
    requires { IsFlowLayout (layout_of ⟦<A as Shape>⟧ ⟦<B as Shape>⟧) }
    ensures { IfSome result (IsSightingOf (layout_of ⟦<A as Shape>⟧ ⟦<B as Shape>⟧) (packet_facts packet.now)) }
{
    let frame = read_plain_frame(packet.frame)?;
    let PlainFlow { key, side } = plain_flow(frame.packet, packet.interface);
    Some(PlainSighting {
        key,
        hash: key_hash::<A, B>(FlowKey::Four(key)),
        sender: frame.sender,
        moment: packet.moment,
        interface: packet.interface,
        side,
        flags: frame.packet.flags,
    })
}
