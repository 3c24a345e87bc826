//! Prefixes as text (RFC 4632, section 3.1; RFC 4291, section 2.3).
ghost use Rattle.std.specs.Prelude.{◌≡◌, ◌≤◌, ◌<◌, IfSome};
ghost use Rattle.acl_policy.specs.inner.WordReading.Prefixes.{prefix_in};
ghost use Rattle.acl_policy.specs.Widths.{width};
ghost use Rattle.packet_view.specs.Addresses.{address_limit};

use crate::address::address_of;
use crate::line_words::cut_at;
use crate::number_parsing::number_of;
use crate::width_and_icmp_of_family::width_of;
use packet_view::Family;

/// An address and how many of its first bits count: `any`, one address, or an address and a length.
#[tactic(auto, unfolding(crate::specs::inner::WordReading::Prefixes::prefix_in))]
pub fn prefix_of(family: Family, word: &[u8]) -> Option<(u128, u8)>
    ensures value { result ≡ prefix_in family word.now }
    ensures fits { IfSome result (λ prefix. prefix.0 < address_limit family) }
    ensures length { IfSome result (λ prefix. prefix.1 ≤ width family) }
{
    if word == b"any".as_slice() {
        return Some((0, 0));
    }
    let width = width_of(family);
    let Some((address, bits)) = cut_at(word, b'/') else {
        let address = address_of(family, word)?;
        return Some((address, width));
    };
    let address = address_of(family, address)?;
    let bits = number_of(bits)?;
    if bits <= u32::from(width) {
        Some((address, bits as u8))
    } else {
        None
    }
}
