//! Flows by the words of their keys.
ghost use Rattle.std.specs.Prelude.{◌≡◌, ◌+◌, ◌*◌, ◌<◌, ◌^◌};
ghost use Rattle.packet_view.specs.Addresses.{address_limit};
ghost use Rattle.packet_view.specs.Tuples.{TupleFacts};
ghost use Rattle.session_state.specs.Flows.{IsFlow};
ghost use Rattle.session_state.specs.SameFlow.{IsTuple};
ghost use Rattle.session_state.specs.declared.flow.Flow.{Flow};
ghost use Rattle.racl_views.specs.SessionLines as line;
ghost use Rattle.racl_views.specs.SessionLines.{SaysPacket, flow_facts, flow_of_key};

use crate::stored_flow::{FlowEnd, StoredFlow};
use packet_view::Family;

// The flow between two addresses, where the last word of its key is this.
fn flow_with_key_word(family: Family, first: u128, second: u128, word: u64) -> StoredFlow
    requires first { first < address_limit family }
    requires second { second < address_limit family }
    ensures { flow_facts result ≡ line.flow_between family first second word }
{
    StoredFlow {
        interface: (word % (1 << 8)) as u8,
        family,
        proto: ((word >> 24) % (1 << 8)) as u8,
        first: FlowEnd {
            address: first,
            port: (word >> 48) as u16,
        },
        second: FlowEnd {
            address: second,
            port: ((word >> 32) % (1 << 16)) as u16,
        },
    }
}

/// The flow with this key of IPv4.
pub fn four_flow(key: [u64; 2]) -> StoredFlow
    ensures { flow_facts result ≡ line.four_flow key }
{
    let [ends, word] = key;
    flow_with_key_word(
        Family::V4,
        u128::from(ends >> 32),
        u128::from(ends % (1 << 32)),
        word,
    )
}

// An address of IPv6 by its halves, which are words of a flow's key.
fn address_of(upper: u64, lower: u64) -> u128
    ensures is { result ≡ upper * 2 ^ 64 + lower }
    ensures fits { result < 2 ^ 128 }
{
    (u128::from(upper) << 64) + u128::from(lower)
}

/// The flow that has this key of IPv6, by the words of the key.
pub fn six_flow(key: [u64; 5]) -> StoredFlow
    ensures { flow_facts result ≡ line.six_flow key }
{
    let [first, first_lower, second, second_lower, word] = key;
    flow_with_key_word(
        Family::V6,
        address_of(first, first_lower),
        address_of(second, second_lower),
        word,
    )
}

/// The key of a packet's flow tells what the packet says: its interface, its family, its protocol, and its ends.
pub fn keys_tell_their_flows()
    ensures { (packet : TupleFacts) (flow : Flow) → IsTuple packet → IsFlow packet flow → SaysPacket packet (flow_of_key flow.key) }
{}
