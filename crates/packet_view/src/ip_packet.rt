//! An IP packet of either family: its addresses, and what it carries up to its end.
ghost use Rattle.std.specs.Prelude.{◌≡◌, ◌≤◌, ◌<◌};
ghost use Rattle.packet_view.specs.Addresses.{address_limit};
ghost use Rattle.packet_view.specs.IpPackets.{extent};

use crate::tuple::Family;

/// What follows the headers of an IP packet.
#[derive(Clone, Copy)]
pub enum Upper<'a> {
    /// A fragment other than the first, by its protocol.
    LaterFragment(u8),
    /// The protocol and its bytes.
    Payload(u8, &'a [u8]),
}

/// An IP packet whose headers are right.
#[derive(Clone, Copy)]
pub struct IpPacket<'a> {
    pub family: Family,
    pub source: u128,
    pub dest: u128,
    pub upper: Upper<'a>,
    pub ghost source_fits: { source < address_limit family },
    pub ghost dest_fits: { dest < address_limit family },
}

/// How many of the bytes that are there belong to an IP packet that declares so many.
#[inline]
pub fn extent(declared: u16, there: usize) -> usize
    ensures exact { result ≡ extent declared there }
    ensures within { result ≤ there }
{
    if declared == 0 {
        there
    } else {
        usize::from(declared).min(there)
    }
}
