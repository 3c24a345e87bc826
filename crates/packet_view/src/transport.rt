//! The first bytes of TCP (RFC 9293), UDP (RFC 768) and ICMP (RFC 792, RFC 4443).
ghost use Rattle.std.specs.Prelude.{◌≡◌, IsTrue, IfSome};
ghost use Rattle.packet_view.specs.Addresses.{fields_suit};
ghost use Rattle.packet_view.specs.inner.FrameSteps.{fields_of};

use crate::tuple::{Family, Fields};
use byteorder::{BigEndian, ByteOrder};

/// The fields of the transport header under a protocol: 6 for TCP, 17 for UDP, 1 and 58 for the ICMP of either family.
/// None where the payload ends before they do.
#[inline]
pub fn fields(family: Family, proto: u8, payload: &[u8]) -> Option<Fields>
    ensures exact { result ≡ fields_of family proto payload.now }
    ensures suit { IfSome result (λ fields. IsTrue (fields_suit family proto fields)) }
{
    match (family, proto) {
        (_, 6) => {
            if payload.len() < 14 {
                return None;
            }
            Some(Fields::Tcp {
                from: BigEndian::read_u16(payload),
                to: BigEndian::read_u16(&payload[2..]),
                flags: payload[13],
            })
        }
        (_, 17) => {
            if payload.len() < 4 {
                return None;
            }
            Some(Fields::Ports {
                from: BigEndian::read_u16(payload),
                to: BigEndian::read_u16(&payload[2..]),
            })
        }
        (Family::V4, 1) | (Family::V6, 58) => {
            if payload.len() < 2 {
                return None;
            }
            Some(Fields::Icmp {
                kind: payload[0],
                code: payload[1],
            })
        }
        _ => Some(Fields::Absent),
    }
}
