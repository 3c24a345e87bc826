//! Plain frames: untagged, of IPv4 without options, of TCP or UDP. Nearly all are, and a straight path reads them.
ghost use Rattle.std.specs.Prelude.{◌≤◌, IfSome, length};
ghost use Rattle.packet_view.specs.PlainFrames.{IsPlain, IsTcpOrUdp};

use crate::ip_packet::extent;
use crate::tuple::{Family, Fields, Tuple};
use byteorder::{BigEndian, ByteOrder};

/// Both ends of a plain frame's packet and its protocol, 6 for TCP or 17 for UDP, as numbers in host order.
#[derive(Clone, Copy, Debug, PartialEq, Eq)]
pub struct PlainPacket {
    pub source: u32,
    pub dest: u32,
    pub from: u16,
    pub to: u16,
    pub proto: u8,
    /// The flags of TCP; 0 for UDP.
    pub flags: u8,
}

impl PlainPacket {
    ghost use Rattle.std.specs.Prelude.{◌≡◌};
    ghost use Rattle.packet_view.specs.PlainFrames.{IsTcpOrUdp, IsTupleOf};
    ghost use Rattle.packet_view.specs.Tuples.{tuple_facts};

    /// The five-tuple that says this of a packet at the interface with this number.
    #[inline(always)]
    pub(crate) fn tuple(self, interface: u8) -> Tuple
        requires { IsTcpOrUdp self }
        ensures says { IsTupleOf self (tuple_facts result) }
        ensures at { result.interface ≡ interface }
    {
        let (from, to) = (self.from, self.to);
        let fields = if self.proto == 6 {
            Fields::Tcp {
                from,
                to,
                flags: self.flags,
            }
        } else {
            Fields::Ports { from, to }
        };
        Tuple {
            interface,
            family: Family::V4,
            source: u128::from(self.source),
            dest: u128::from(self.dest),
            proto: self.proto,
            fields,
        }
    }
}

/// What a plain frame has, wherever it is seen: its packet, and the address that it comes from.
#[derive(Clone, Copy, Debug, PartialEq, Eq)]
pub struct PlainFrame {
    pub packet: PlainPacket,
    /// That address as a number in host order.
    pub sender: u64,
}

/// What a plain frame has: untagged, of IPv4 (RFC 791, section 3.1) with a header of 20 bytes, no later fragment, of
/// TCP (RFC 9293) or UDP (RFC 768) with their fields.
///
/// `None` says nothing of the frame: `view` tells what it is.
#[inline(always)]
pub fn plain(frame: &[u8]) -> Option<PlainPacket>
    ensures plain { IfSome result (IsPlain frame.now) }
    ensures kind { IfSome result IsTcpOrUdp }
    ensures long { IfSome result (λ _. 38 ≤ length frame.now) }
{
    if frame.len() < 38 || BigEndian::read_u16(&frame[12..]) != 0x0800 || frame[14] != 0x45 {
        return None;
    }
    let least = match frame[23] {
        6 => 34,
        17 => 24,
        _ => return None,
    };
    let end = extent(BigEndian::read_u16(&frame[16..]), frame.len() - 14);
    if end < least || BigEndian::read_u16(&frame[20..]) % 8192 != 0 {
        return None;
    }
    let flags = if least == 34 { frame[47] } else { 0 };
    Some(PlainPacket {
        source: BigEndian::read_u32(&frame[26..]),
        dest: BigEndian::read_u32(&frame[30..]),
        from: BigEndian::read_u16(&frame[34..]),
        to: BigEndian::read_u16(&frame[36..]),
        proto: frame[23],
        flags,
    })
}
