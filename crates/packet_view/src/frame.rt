//! Frames, and what they turn out to be.
ghost use Rattle.std.specs.Prelude.{◌≡◌, IfSome};
ghost use Rattle.packet_view.specs.Frames.{IsFrame, FrameFacts, frame_facts};
ghost use Rattle.packet_view.specs.inner.FrameSteps.{packets, view_of, view_of_packet};

use crate::frame_direction::direction;
use crate::ip_packet::{IpPacket, Upper};
use crate::plain_frame_at::read_plain_frame;
use crate::tuple::{Direction, Fields, Mac, Tuple};
use crate::{ethernet, ipv4, ipv6, transport};

/// What a frame turns out to be.
#[derive(Clone, Copy, Debug, PartialEq, Eq)]
pub enum Frame {
    /// A frame of another type than IPv4 and IPv6.
    NotIp,
    /// A frame whose Ethernet or IP headers aren't whole, or not right.
    Malformed,
    /// A packet that ends within the fields of its own protocol.
    Short,
    /// A packet, by its way at the interface.
    Ip(Direction, Tuple),
}

impl Frame {
    ghost use Rattle.packet_view.specs.Frames.{IsFrame, FrameFacts, frame_facts};

    /// What a frame is at the interface with this number and own address, by what it is there without one: its bytes are looked
    /// at for its way alone.
    #[inline]
    pub fn at(&self, frame: &[u8], interface: u8, own: Option<Mac>) -> Frame
        requires { IsFrame frame.now (record { number = interface; own = None }) (frame_facts self.now) }
        ensures shown { IsFrame frame.now (record { number = interface; own = own }) (frame_facts result) }
        ensures only { (other : FrameFacts) → IsFrame frame.now (record { number = interface; own = own }) other → other ≡ frame_facts result }
    {
        match self {
            Frame::NotIp => Frame::NotIp,
            Frame::Malformed => Frame::Malformed,
            Frame::Short => Frame::Short,
            Frame::Ip(_, tuple) => Frame::Ip(direction(frame, own), *tuple),
        }
    }
}

/// What a frame that goes this way at the interface with this number is by its packet, None where that is malformed.
#[inline]
fn frame_of(interface: u8, direction: Direction, packet: Option<IpPacket<'_>>) -> Frame
    ensures { frame_facts result
        ≡ view_of_packet (record { number = interface; direction = direction }) (packets packet.entry) }
{
    let Some(packet) = packet else {
        return Frame::Malformed;
    };
    let (proto, fields) = match packet.upper {
        Upper::LaterFragment(proto) => (proto, Fields::Absent),
        Upper::Payload(proto, payload) => {
            let Some(fields) = transport::fields(packet.family, proto, payload) else {
                return Frame::Short;
            };
            (proto, fields)
        }
    };
    Frame::Ip(
        direction,
        Tuple {
            interface,
            family: packet.family,
            source: packet.source,
            dest: packet.dest,
            proto,
            fields,
        },
    )
}

/// What a frame is by its layers, one above the other. Few frames aren't plain, and the path of the others is shorter
/// without this.
#[inline(never)]
fn read(frame: &[u8], interface: u8, own: Option<Mac>) -> Frame
    ensures { frame_facts result ≡ view_of frame.now (record { number = interface; own = own }) }
{
    let Some((kind, content)) = ethernet::content(frame) else {
        return Frame::Malformed;
    };
    let packet = match kind {
        0x0800 => ipv4::packet(content),
        0x86dd => ipv6::packet(content),
        _ => return Frame::NotIp,
    };
    frame_of(interface, direction(frame, own), packet)
}

/// What a plain frame is at the interface with this number and own address; whoever judges many packets asks this first.
///
/// `None` says nothing of the frame: `view` tells what it is.
#[inline(always)]
pub fn plain_frame(frame: &[u8], interface: u8, own: Option<Mac>) -> Option<Frame>
    ensures shown { IfSome result (λ seen. IsFrame frame.now (record { number = interface; own = own }) (frame_facts seen)) }
    ensures only { IfSome result (λ seen. (other : FrameFacts) → IsFrame frame.now (record { number = interface; own = own }) other → other ≡ frame_facts seen) }
{
    Some(read_plain_frame(frame)?.at(interface, own))
}

/// What a frame is at the interface with this number and own address: from that address it goes out, from every other
/// it comes in.
///
/// Up to two VLAN tags are skipped, and up to eight IPv6 extension headers. A packet ends where its total or payload
/// length says, or with the frame. A length of 0, as captures show of offloaded packets, says nothing.
#[inline(always)]
pub fn view(frame: &[u8], interface: u8, own: Option<Mac>) -> Frame
    ensures shown { IsFrame frame.now (record { number = interface; own = own }) (frame_facts result) }
    ensures only { (other : FrameFacts) → IsFrame frame.now (record { number = interface; own = own }) other → other ≡ frame_facts result }
{
    match plain_frame(frame, interface, own) {
        Some(seen) => seen,
        None => read(frame, interface, own),
    }
}
