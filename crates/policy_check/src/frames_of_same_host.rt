//! Captures in whose first frames the host of a `mac` line sends from another address too, as by a bond of interfaces.
ghost use Rattle.std.specs.Prelude.{◌≡◌, Any, IfSome, IsTrue, None, Some, ℕ, false, option_map};
ghost use Rattle.packet_view.specs.Captures.{packet_facts};
ghost use Rattle.packet_view.specs.CheckedCaptures.{remaining};
ghost use Rattle.packet_view.specs.Tuples.{TupleFacts, tuple_facts};
ghost use Rattle.acl_policy.specs.Policies.{section_facts};
ghost use Rattle.policy_check.specs.SameHost.{ComesInFromHost, GoesOutFrom, IsGoing, IsHostOf, IsOfSoMany, IsToOwn, seen_at};

use crate::captures_of_other_macs::begins_with;
use acl_policy::Section;
use packet_view::{
    Direction, Family, Frame, Packet, Packets, Tuple, capture_header, front_records, view,
};
use thiserror::Error;

/// That this is so of the interface with this number, and of so many frames.
#[derive(Clone, Copy, Debug, PartialEq, Eq, Error)]
#[error("interface {0}: {1} of the first frames come in from an IP address from which others go out; a host of several Ethernet addresses has one mac line")]
pub struct OtherMac(pub u8, pub u64);

// The five-tuple of a packet that goes this way at the interface of a section.
fn going(section: &Section, packet: Packet<'_>, direction: Direction) -> Option<Tuple>
    ensures some { IfSome result (λ tuple. IsGoing (seen_at (section_facts section.now)) direction (packet_facts packet.entry) (tuple_facts tuple)) }
    ensures only { (tuple : TupleFacts) → IsGoing (seen_at (section_facts section.now)) direction (packet_facts packet.entry) tuple
        → option_map tuple_facts result ≡ Some tuple }
{
    let Frame::Ip(seen, tuple) = view(packet.frame, section.interface, section.own) else {
        return None;
    };
    if seen == direction { Some(tuple) } else { None }
}

// Whether a packet goes out from this source.
fn goes_out_from(section: &Section, packet: Packet<'_>, family: Family, source: u128) -> bool
    ensures yes { IsTrue result → GoesOutFrom (seen_at (section_facts section.now)) family source (packet_facts packet.entry) }
    ensures no { result ≡ false → GoesOutFrom (seen_at (section_facts section.now)) family source (packet_facts packet.entry) → ⊥ }
{
    let Some(tuple) = going(section, packet, Direction::Outbound) else {
        return false;
    };
    tuple.family == family && tuple.source == source
}

// Whether one of these packets goes out from this source.
fn one_goes_out_from(section: &Section, packets: Packets<'_>, family: Family, source: u128) -> bool
    ensures yes { IsTrue result → Any (GoesOutFrom (seen_at (section_facts section.now)) family source) (remaining packets.entry) }
    ensures no { result ≡ false → Any (GoesOutFrom (seen_at (section_facts section.now)) family source) (remaining packets.entry) → ⊥ }
{
    let mut left = packets;
    'packets: while let Some(packet) = left.next() {
        if goes_out_from(section, packet, family, source) {
            return true;
        }
    }
    false
}

// Whether a frame is to the address of a section's `mac` line.
fn is_to_own(section: &Section, frame: &[u8]) -> bool
    ensures yes { IsTrue result → IsToOwn (section_facts section.now).own frame.now }
    ensures no { result ≡ false → IsToOwn (section_facts section.now).own frame.now → ⊥ }
{
    match section.own {
        Some(own) => begins_with(frame, own),
        None => false,
    }
}

// Whether a packet comes in, to another than the own address, from a source that some of these have, which go out.
fn comes_in_from_host(section: &Section, packets: Packets<'_>, packet: Packet<'_>) -> bool
    ensures yes { IsTrue result → ComesInFromHost (seen_at (section_facts section.now)) (remaining packets.entry) (packet_facts packet.entry) }
    ensures no { result ≡ false → ComesInFromHost (seen_at (section_facts section.now)) (remaining packets.entry) (packet_facts packet.entry) → ⊥ }
{
    if is_to_own(section, packet.frame) {
        return false;
    }
    let Some(tuple) = going(section, packet, Direction::Inbound) else {
        return false;
    };
    if tuple.source == 0 {
        return false;
    }
    one_goes_out_from(section, packets, tuple.family, tuple.source)
}

// How many of these packets come in from a source that some of them have, which go out.
fn frames_from_host(section: &Section, packets: Packets<'_>) -> u64
    ensures { IsOfSoMany (ComesInFromHost (seen_at (section_facts section.now)) (remaining packets.entry)) (remaining packets.entry) result }
{
    // (no more than these: so the count fits)
    let _most = packets.count();
    let mut left = packets;
    let mut count: usize = 0;
    'packets: while let Some(packet) = left.next() {
        if comes_in_from_host(section, packets, packet) {
            count += 1;
        }
    }
    count as u64
}

/// That some of the frames that stand whole in these first bytes of the capture of a section's interface come in from an IP
/// address of the host, from which others go out, and how many they are; None where none does.
pub fn other_mac(section: &Section, front: &[u8]) -> Option<OtherMac>
    ensures holds { IfSome result (λ told. IsHostOf (section_facts section.now) front.now told.0 told.1) }
    ensures none { result ≡ None → (number count : ℕ) → IsHostOf (section_facts section.now) front.now number count → ⊥ }
{
    let Ok(order) = capture_header(front) else {
        return None;
    };
    let first = front_records(&front[24..], order, section.interface);
    let count = frames_from_host(section, Packets::Records(first.records));
    if count > 0 {
        Some(OtherMac(section.interface, count))
    } else {
        None
    }
}
