//! IPv6 headers, and the walk over extension headers (RFC 8200, sections 3 and 4).
ghost use Rattle.std.specs.Prelude.{◌≡◌};
ghost use Rattle.packet_view.specs.Ipv6;
ghost use Rattle.packet_view.specs.inner.FrameSteps.{header_of, header_facts, packet_of_v6, packets, uppers, walk};

use crate::ip_packet::{IpPacket, Upper, extent};
use crate::tuple::Family;
use byteorder::{BigEndian, ByteOrder};

/// What stands under a number in the chain of headers.
#[derive(Clone, Copy)]
enum Header<'a> {
    /// An extension header that is skipped: the next number, and the bytes after the header.
    Skipped(u8, &'a [u8]),
    /// The end of the chain, None where a header isn't whole.
    Last(Option<Upper<'a>>),
}

/// The numbers of IPv6 extension headers: hop-by-hop options, routing, fragment and destination options (RFC 8200,
/// section 4).
#[inline]
fn is_extension(number: u8) -> bool
    ensures { result ≡ Ipv6.is_extension number }
{
    matches!(number, 0 | 43 | 44 | 60)
}

/// What stands under this number in the chain of IPv6 headers, at the front of the bytes.
#[inline]
fn header_at(number: u8, bytes: &[u8]) -> Header<'_>
    ensures { header_facts result ≡ header_of number bytes.now }
{
    if !is_extension(number) {
        return Header::Last(Some(Upper::Payload(number, bytes)));
    }
    if bytes.len() < 8 {
        return Header::Last(None);
    }
    if number == 44 {
        if BigEndian::read_u16(&bytes[2..]) / 8 != 0 {
            return Header::Last(Some(Upper::LaterFragment(bytes[0])));
        }
        return Header::Skipped(bytes[0], &bytes[8..]);
    }
    let len = (usize::from(bytes[1]) + 1) * 8;
    if bytes.len() < len {
        return Header::Last(None);
    }
    Header::Skipped(bytes[0], &bytes[len..])
}

/// What an IPv6 packet carries after up to eight skipped headers. None where a header isn't whole, or a ninth is there.
#[inline]
fn upper(first: u8, bytes: &[u8]) -> Option<Upper<'_>>
    ensures { uppers result ≡ walk 8 first bytes.now }
{
    let mut number = first;
    let mut rest = bytes;
    for _ in 0..8u8 {
        match header_at(number, rest) {
            Header::Skipped(next, behind) => {
                number = next;
                rest = behind;
            }
            Header::Last(upper) => return upper,
        }
    }
    if is_extension(number) {
        return None;
    }
    Some(Upper::Payload(number, rest))
}

/// The IPv6 packet whose bytes these are. None where its headers are malformed.
#[inline]
pub fn packet(bytes: &[u8]) -> Option<IpPacket<'_>>
    ensures { packets result ≡ packet_of_v6 bytes.now }
{
    if bytes.len() < 40 || bytes[0] / 16 != 6 {
        return None;
    }
    let payload = extent(BigEndian::read_u16(&bytes[4..]), bytes.len() - 40);
    let upper = upper(bytes[6], &bytes[40..40 + payload])?;
    Some(IpPacket {
        family: Family::V6,
        source: BigEndian::read_u128(&bytes[8..]),
        dest: BigEndian::read_u128(&bytes[24..]),
        upper,
    })
}
