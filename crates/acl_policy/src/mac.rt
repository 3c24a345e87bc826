//! The address of an Ethernet interface as text.
ghost use Rattle.std.specs.Prelude.{◌≡◌, option_map};
ghost use Rattle.acl_policy.specs.inner.WordReading.Numerals.{pair_in, piece_in};
ghost use Rattle.acl_policy.specs.inner.WordReading.Prefixes.{mac_in};

use crate::line_words::cut_at;
use crate::number_parsing::hex_pair_of;
use packet_view::Mac;

// The first pair of hexadecimal digits of a MAC address as text, and what follows its colon.
#[tactic(auto, unfolding(crate::specs::inner::WordReading::Numerals::piece_in))]
fn pair_before_colon(text: &[u8]) -> Option<(u8, &[u8])>
    ensures { option_map (λ r. (r.0, r.1.now)) result ≡ piece_in 58 pair_in text.now }
{
    let (first, rest) = cut_at(text, b':')?;
    let pair = hex_pair_of(first)?;
    Some((pair, rest))
}

/// Six pairs of hexadecimal digits with `:` between them.
#[tactic(auto, unfolding(crate::specs::inner::WordReading::Prefixes::mac_in))]
pub fn mac_of(text: &[u8]) -> Option<Mac>
    ensures { result ≡ mac_in text.now }
{
    let (a, text) = pair_before_colon(text)?;
    let (b, text) = pair_before_colon(text)?;
    let (c, text) = pair_before_colon(text)?;
    let (d, text) = pair_before_colon(text)?;
    let (e, text) = pair_before_colon(text)?;
    let f = hex_pair_of(text)?;
    Some(Mac([a, b, c, d, e, f]))
}
