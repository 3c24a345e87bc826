//! Flows: both directions of an exchange under one key.
ghost use Rattle.std.specs.Prelude.{◌≡◌, ◌<◌, ◌+◌, ◌*◌, ◌^◌, IfSome, Some};
ghost use Rattle.packet_view.specs.declared.tuple.Family.TheVariants.{V4};
ghost use Rattle.packet_view.specs.Addresses.{address_limit};
ghost use Rattle.packet_view.specs.Tuples.{tuple_facts};
ghost use Rattle.session_state.specs.declared.flow.Flow.{Flow};
ghost use Rattle.session_state.specs.Flows;
ghost use Rattle.session_state.specs.declared.flow.FlowKey.TheVariants.{Four};
ghost use Rattle.session_state.specs.Flows.{IsFlow, echo_flow, end_of_number, flow_by_order, flow_of, key_of};

use crate::flow_end::{End, is_first, receiver, sender};
use crate::plain_packet_flow::{end_number, flow_by_number};
use packet_view::{Family, Fields, Tuple};

/// What names a flow in its family's table: the interface, and addresses, ports and protocol of both ends.
#[derive(Clone, Copy, Debug, PartialEq, Eq)]
pub enum FlowKey {
    /// Of IPv4.
    Four([u64; 2]),
    /// Of IPv6.
    Six([u64; 5]),
}

/// A packet's place in its flow.
#[derive(Clone, Copy, Debug, PartialEq, Eq)]
pub struct Flow {
    pub key: FlowKey,
    /// The sender's side: 0 for the end that stands first in the key, else 1.
    pub side: u8,
    /// Whether the packet may start a session.
    pub starts: bool,
}

// The ICMP type of the echo requests of a flow.
fn request_type(family: Family) -> u8
    ensures { result ≡ Flows.request_type family }
{
    match family {
        Family::V4 => 8,
        Family::V6 => 128,
    }
}

// The ICMP type of the echo replies of a flow.
fn reply_type(family: Family) -> u8
    ensures { result ≡ Flows.reply_type family }
{
    match family {
        Family::V4 => 0,
        Family::V6 => 129,
    }
}

// The last word of a flow's key.
fn ports_word(first: u64, second: u64, proto: u8, interface: u8) -> u64
    requires first { first < 2 ^ 16 }
    requires second { second < 2 ^ 16 }
    ensures { result ≡ first * 2 ^ 48 + second * 2 ^ 32 + proto * 2 ^ 24 + interface }
{
    (first << 48) + (second << 32) + (u64::from(proto) << 24) + u64::from(interface)
}

// The key of a packet's flow, whose ends stand in this order.
fn key(tuple: &Tuple, first: End, second: End) -> FlowKey
    requires first { first.address < address_limit tuple.now.family }
    requires second { second.address < address_limit tuple.now.family }
    ensures { result ≡ key_of tuple.now.family first second tuple.now.proto tuple.now.interface }
{
    let ports = ports_word(
        u64::from(first.port),
        u64::from(second.port),
        tuple.proto,
        tuple.interface,
    );
    match tuple.family {
        Family::V4 => FlowKey::Four([((first.address << 32) + second.address) as u64, ports]),
        Family::V6 => FlowKey::Six([
            (first.address >> 64) as u64,
            (first.address % (1 << 64)) as u64,
            (second.address >> 64) as u64,
            (second.address % (1 << 64)) as u64,
            ports,
        ]),
    }
}

// The flow of a packet whose ends stand in this order in the key.
fn oriented(tuple: &Tuple, first: End, second: End, starts: bool) -> Flow
    requires first { first.address < address_limit tuple.now.family }
    requires second { second.address < address_limit tuple.now.family }
    ensures { result ≡ Flows.oriented (tuple_facts tuple.now) first second starts }
{
    Flow {
        key: key(tuple, first, second),
        side: u8::from(sender(tuple) != first),
        starts,
    }
}

// The words of the key of an IPv4 flow, whose ends, as numbers, stand in this order.
pub(crate) fn key_words(first: u64, second: u64, proto: u8, interface: u8) -> [u64; 2]
    requires first { first < 2 ^ 48 }
    requires second { second < 2 ^ 48 }
    ensures { Four result ≡ key_of V4 (end_of_number first) (end_of_number second) proto interface }
{
    let ports = ports_word(first % (1 << 16), second % (1 << 16), proto, interface);
    [((first >> 16) << 32) + (second >> 16), ports]
}

// The flow of a TCP or UDP packet, in whose key the lesser end stands first.
#[inline(always)]
fn by_order(tuple: &Tuple) -> Flow
    ensures { result ≡ flow_by_order (tuple_facts tuple.now) }
{
    match tuple.family {
        Family::V4 => flow_by_number(
            end_number(sender(tuple)),
            end_number(receiver(tuple)),
            tuple.proto,
            tuple.interface,
        )
        .flow(),
        Family::V6 => by_ends(tuple),
    }
}

// The flow of a TCP or UDP packet of IPv6, which is found by comparing its ends.
fn by_ends(tuple: &Tuple) -> Flow
    ensures { result ≡ flow_by_order (tuple_facts tuple.now) }
{
    let from = sender(tuple);
    let to = receiver(tuple);
    if is_first(from, to) {
        oriented(tuple, from, to, true)
    } else {
        oriented(tuple, to, from, true)
    }
}

// The flow of an ICMP packet of this type, where it is an echo request or reply.
fn echo(tuple: &Tuple, kind: u8) -> Option<Flow>
    ensures { result ≡ echo_flow (tuple_facts tuple.now) kind }
{
    let from = sender(tuple);
    let to = receiver(tuple);
    if kind == request_type(tuple.family) {
        return Some(oriented(tuple, from, to, true));
    }
    if kind == reply_type(tuple.family) {
        return Some(oriented(tuple, to, from, false));
    }
    None
}

/// The flow of a packet, `None` where it takes no part in sessions.
///
/// TCP and UDP packets take part, and echo requests and replies of their own family's ICMP
/// (RFC 792, RFC 4443).
#[inline(always)]
pub fn orient(tuple: &Tuple) -> Option<Flow>
    ensures value { result ≡ flow_of (tuple_facts tuple.now) }
    ensures found { IfSome result (IsFlow (tuple_facts tuple.now)) }
    ensures side { IfSome result (λ flow. flow.side < 2) }
    ensures only { (flow : Flow) → IsFlow (tuple_facts tuple.now) flow → result ≡ Some flow }
{
    match tuple.fields {
        Fields::Absent => None,
        Fields::Ports { .. } | Fields::Tcp { .. } => Some(by_order(tuple)),
        Fields::Icmp { kind, .. } => echo(tuple, kind),
    }
}
