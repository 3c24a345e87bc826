//! A rule: which packets it is about, and what becomes of them.
ghost use Rattle.std.specs.Prelude.{◌≤◌, ◌<◌};
ghost use Rattle.packet_view.specs.Addresses.{address_limit};
ghost use Rattle.acl_policy.specs.Widths.{width};

use packet_view::Family;

/// What becomes of the packets that a rule decides.
#[derive(Clone, Copy, Debug, PartialEq, Eq)]
pub enum Action {
    Deny,
    Permit,
    /// Permitted, and so are the packets of its session.
    Reflect,
}

/// A rule, with its numbers in host order. Ranges hold both their ends.
///
/// An IPv4 address is below 2 to the power 32, and a prefix is no longer than an address.
#[derive(Clone, Copy, Debug, PartialEq, Eq)]
pub struct Rule {
    pub action: Action,
    pub family: Family,
    /// An address and how many of its first bits count.
    pub source: (u128, u8),
    /// An address and how many of its first bits count.
    pub dest: (u128, u8),
    /// The protocol, and 0 for every protocol.
    pub proto: u8,
    /// The source ports, or the types of ICMP.
    pub first: (u16, u16),
    /// The destination ports, or the codes of ICMP.
    pub second: (u16, u16),
    /// What the flags of TCP are, as far as `mask` has them.
    pub value: u8,
    /// The flags of TCP that count.
    pub mask: u8,
    pub ghost source_fits: { source.0 < address_limit family },
    pub ghost dest_fits: { dest.0 < address_limit family },
    pub ghost source_length: { source.1 ≤ width family },
    pub ghost dest_length: { dest.1 ≤ width family },
}
