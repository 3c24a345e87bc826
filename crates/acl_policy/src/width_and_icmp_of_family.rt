//! What differs between the two versions of the Internet Protocol.
ghost use Rattle.std.specs.Prelude.{◌≡◌};
ghost use Rattle.acl_policy.specs.Widths.{width};
ghost use Rattle.packet_view.specs.Addresses.{icmp_of};

use packet_view::Family;

/// The bits of an address.
pub fn width_of(family: Family) -> u8
    ensures { result ≡ width family }
{
    match family {
        Family::V4 => 32,
        Family::V6 => 128,
    }
}

/// The protocol number that ICMP has in this family: that of ICMP (RFC 792) or ICMPv6 (RFC 4443).
pub fn icmp_number(family: Family) -> u8
    ensures { result ≡ icmp_of family }
{
    match family {
        Family::V4 => 1,
        Family::V6 => 58,
    }
}
