//! IPv4 headers (RFC 791, section 3.1).
ghost use Rattle.std.specs.Prelude.{◌≡◌};
ghost use Rattle.packet_view.specs.inner.FrameSteps.{packet_of_v4, packets};

use crate::ip_packet::{IpPacket, Upper, extent};
use crate::tuple::Family;
use byteorder::{BigEndian, ByteOrder};

/// The IPv4 packet whose bytes these are. None where its header is malformed.
#[inline]
pub fn packet(bytes: &[u8]) -> Option<IpPacket<'_>>
    ensures { packets result ≡ packet_of_v4 bytes.now }
{
    if bytes.len() < 20 || bytes[0] / 16 != 4 {
        return None;
    }
    let header = usize::from(bytes[0] % 16) * 4;
    if header < 20 || bytes.len() < header {
        return None;
    }
    let total = BigEndian::read_u16(&bytes[2..]);
    if total != 0 && usize::from(total) < header {
        return None;
    }
    let upper = if BigEndian::read_u16(&bytes[6..]) % 8192 == 0 {
        Upper::Payload(bytes[9], &bytes[header..extent(total, bytes.len())])
    } else {
        Upper::LaterFragment(bytes[9])
    };
    Some(IpPacket {
        family: Family::V4,
        source: u128::from(BigEndian::read_u32(&bytes[12..])),
        dest: u128::from(BigEndian::read_u32(&bytes[16..])),
        upper,
    })
}
