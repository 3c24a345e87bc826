//! What a packet carries, in words: the protocol, and what follows it.
ghost use Rattle.std.specs.Prelude.{◌≡◌, option_map, IsTrue};
ghost use Rattle.packet_view.specs.Addresses.{fields_suit};
ghost use Rattle.packet_view.specs.Tuples.{tuple_facts};
ghost use Rattle.acl_policy.specs.inner.WordReading.{if_last};
ghost use Rattle.acl_policy.specs.Words.{words_of};
ghost use Rattle.packet_questions.specs.inner.EndsRead.{ends_facts};
ghost use Rattle.packet_questions.specs.inner.Reading;
ghost use Rattle.packet_questions.specs.inner.Reading.{carried_by, carried_in, fragment_in, icmp_in, other_in, tcp_in, tuple_by, udp_in};

use crate::end::Ends;
use crate::ends::{next_ends, next_flags, next_named, next_ported_ends};
use acl_policy::{icmp_number, is_end, next_word, number_up_to, protocol_of};
use packet_view::{Family, Fields, Tuple};

const TCP: u8 = 6;

const UDP: u8 = 17;

// The tuple of a packet, where its text ends here.
fn last_tuple(interface: u8, ends: Ends, proto: u8, fields: Fields, text: &[u8]) -> Option<Tuple>
    requires { IsTrue (fields_suit ends.family proto fields) }
    ensures { option_map tuple_facts result ≡ if_last (tuple_by interface (ends_facts ends) proto fields) (words_of text.now) }
{
    if !is_end(text) {
        return None;
    }
    Some(Tuple {
        interface,
        family: ends.family,
        source: ends.source,
        dest: ends.dest,
        proto,
        fields,
    })
}

// The tuple of a packet of TCP, behind its protocol.
#[tactic(auto, unfolding(crate::specs::inner::Reading::tcp_in))]
fn tcp_of(interface: u8, text: &[u8]) -> Option<Tuple>
    ensures { option_map tuple_facts result ≡ tcp_in interface (words_of text.now) }
{
    let (ends, (from, to), text) = next_ported_ends(text)?;
    let (flags, text) = next_flags(text)?;
    last_tuple(interface, ends, TCP, Fields::Tcp { from, to, flags }, text)
}

// The tuple of a packet of UDP, behind its protocol.
#[tactic(auto, unfolding(crate::specs::inner::Reading::udp_in))]
fn udp_of(interface: u8, text: &[u8]) -> Option<Tuple>
    ensures { option_map tuple_facts result ≡ udp_in interface (words_of text.now) }
{
    let (ends, (from, to), text) = next_ported_ends(text)?;
    last_tuple(interface, ends, UDP, Fields::Ports { from, to }, text)
}

// The tuple of a packet of its family's ICMP, behind its protocol.
#[tactic(auto, unfolding(crate::specs::inner::Reading::icmp_in))]
fn icmp_of(interface: u8, text: &[u8]) -> Option<Tuple>
    ensures { option_map tuple_facts result ≡ icmp_in interface (words_of text.now) }
{
    let (ends, text) = next_ends(text)?;
    let (kind, text) = next_named(text, b"type")?;
    let (code, text) = next_named(text, b"code")?;
    let proto = icmp_number(ends.family);
    last_tuple(interface, ends, proto, Fields::Icmp { kind, code }, text)
}

// The protocol of a fragment other than the first.
fn fragment_proto(family: Family, word: &[u8]) -> Option<u8>
    ensures { result ≡ Reading.fragment_proto family word.now }
{
    if word == b"any".as_slice() {
        return None;
    }
    protocol_of(family, word)
}

// The tuple of a fragment other than the first, behind that word.
#[tactic(auto, unfolding(crate::specs::inner::Reading::fragment_in))]
fn fragment_of(interface: u8, text: &[u8]) -> Option<Tuple>
    ensures { option_map tuple_facts result ≡ fragment_in interface (words_of text.now) }
{
    let (word, text) = next_word(text)?;
    let (ends, text) = next_ends(text)?;
    let proto = fragment_proto(ends.family, word)?;
    last_tuple(interface, ends, proto, Fields::Absent, text)
}

// A protocol whose header isn't looked at.
fn other_proto(family: Family, word: &[u8]) -> Option<u8>
    ensures { result ≡ Reading.other_proto family word.now }
{
    let proto = number_up_to(word, u16::from(u8::MAX))? as u8;
    if proto == TCP || proto == UDP || proto == icmp_number(family) {
        return None;
    }
    Some(proto)
}

// The tuple of a packet of a protocol whose header isn't looked at, by that word and the text behind it.
#[tactic(auto, unfolding(crate::specs::inner::Reading::other_in))]
fn other_of(interface: u8, word: &[u8], text: &[u8]) -> Option<Tuple>
    ensures { option_map tuple_facts result ≡ other_in interface word.now (words_of text.now) }
{
    let (ends, text) = next_ends(text)?;
    let proto = other_proto(ends.family, word)?;
    last_tuple(interface, ends, proto, Fields::Absent, text)
}

// The tuple of a packet, by the word that names its protocol and the text behind it.
#[tactic(auto, unfolding(crate::specs::inner::Reading::carried_by))]
fn carried_with(interface: u8, word: &[u8], text: &[u8]) -> Option<Tuple>
    ensures { option_map tuple_facts result ≡ carried_by interface word.now (words_of text.now) }
{
    if word == b"tcp".as_slice() {
        return tcp_of(interface, text);
    }
    if word == b"udp".as_slice() {
        return udp_of(interface, text);
    }
    if word == b"icmp".as_slice() {
        return icmp_of(interface, text);
    }
    if word == b"fragment".as_slice() {
        return fragment_of(interface, text);
    }
    other_of(interface, word, text)
}

/// The tuple of a packet that is seen at this interface, by the text that says what it carries.
#[tactic(auto, unfolding(crate::specs::inner::Reading::carried_in))]
pub fn carried_of(interface: u8, text: &[u8]) -> Option<Tuple>
    ensures { option_map tuple_facts result ≡ carried_in interface (words_of text.now) }
{
    let (word, text) = next_word(text)?;
    carried_with(interface, word, text)
}
