//! The five-tuple: what rules and sessions look at in a packet.
ghost use Rattle.std.specs.Prelude.{◌<◌, IsTrue};
ghost use Rattle.packet_view.specs.Addresses.{address_limit, fields_suit};

/// The version of the Internet Protocol (RFC 791, RFC 8200).
#[derive(Clone, Copy, Debug, PartialEq, Eq)]
pub enum Family {
    V4,
    V6,
}

/// What a packet says beyond its addresses and its protocol, in host order.
#[derive(Clone, Copy, Debug, PartialEq, Eq)]
pub enum Fields {
    /// A fragment other than the first, or a protocol whose header isn't looked at.
    Absent,
    /// The ports of UDP (RFC 768).
    Ports { from: u16, to: u16 },
    /// The ports and flags of TCP (RFC 9293, section 3.1).
    Tcp { from: u16, to: u16, flags: u8 },
    /// The type and code of ICMP (RFC 792) or ICMPv6 (RFC 4443).
    Icmp { kind: u8, code: u8 },
}

/// Which way a frame goes at the interface.
#[derive(Clone, Copy, Debug, PartialEq, Eq)]
pub enum Direction {
    Inbound,
    Outbound,
}

/// The address of an Ethernet interface, first byte first.
#[derive(Clone, Copy, Debug, PartialEq, Eq)]
pub struct Mac(pub [u8; 6]);

/// What rules and sessions look at: addresses and ports as numbers in host order.
///
/// An IPv4 address is below 2 to the power 32, and the fields are of the protocol and the family.
#[derive(Clone, Copy, Debug, PartialEq, Eq)]
pub struct Tuple {
    /// The number of the interface where the packet was seen.
    pub interface: u8,
    pub family: Family,
    pub source: u128,
    pub dest: u128,
    pub proto: u8,
    pub fields: Fields,
    pub ghost source_fits: { source < address_limit family },
    pub ghost dest_fits: { dest < address_limit family },
    pub ghost fields_fit: { IsTrue (fields_suit family proto fields) },
}
