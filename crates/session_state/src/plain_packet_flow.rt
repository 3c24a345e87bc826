//! Flows of TCP and UDP over IPv4, in as few bytes as a key and a side.
ghost use Rattle.std.specs.Prelude.{◌≡◌, ◌<◌, ◌+◌, ◌*◌, ◌^◌, Some};
ghost use Rattle.packet_view.specs.PlainFrames.{IsTupleOf};
ghost use Rattle.packet_view.specs.Tuples.{TupleFacts};
ghost use Rattle.session_state.specs.Flows;
ghost use Rattle.session_state.specs.Flows.{end_of_number, flow_of};
ghost use Rattle.session_state.specs.PlainFlows.{flow_in, packet_in};

use crate::flow::{Flow, FlowKey, key_words};
use crate::flow_end::End;
use packet_view::PlainPacket;

/// A packet's place in a flow of TCP or UDP over IPv4. Together with its flags this is all that the packet says.
#[derive(Clone, Copy)]
pub struct PlainFlow {
    /// The words of the flow's key.
    pub key: [u64; 2],
    /// The sender's side: 0 for the end that stands first in the key, else 1.
    pub side: u8,
}

impl PlainFlow {
    ghost use Rattle.std.specs.Prelude.{◌≡◌};
    ghost use Rattle.session_state.specs.PlainFlows.{flow_in, packet_in};

    /// The same, as a place in a flow of any kind.
    #[inline(always)]
    pub fn flow(self) -> Flow
        ensures { result ≡ flow_in self }
    {
        Flow {
            key: FlowKey::Four(self.key),
            side: self.side,
            starts: true,
        }
    }

    /// The packet with these flags that has this place.
    #[inline(always)]
    pub fn packet(self, flags: u8) -> PlainPacket
        ensures { result ≡ packet_in self flags }
    {
        let [addresses, ports] = self.key;
        let first = (addresses >> 32) as u32;
        let second = (addresses % (1 << 32)) as u32;
        let first_port = (ports >> 48) as u16;
        let second_port = ((ports >> 32) % (1 << 16)) as u16;
        let proto = ((ports >> 24) % (1 << 8)) as u8;
        if self.side == 0 {
            PlainPacket {
                source: first,
                dest: second,
                from: first_port,
                to: second_port,
                proto,
                flags,
            }
        } else {
            PlainPacket {
                source: second,
                dest: first,
                from: second_port,
                to: first_port,
                proto,
                flags,
            }
        }
    }
}

// The number of an end in an IPv4 flow: the order of ends is that of their numbers.
pub(crate) fn end_number(end: End) -> u64
    requires { end.address < 2 ^ 32 }
    ensures is { end_of_number result ≡ end }
    ensures number { result ≡ end.address * 2 ^ 16 + end.port }
    ensures fits { result < 2 ^ 48 }
{
    ((end.address as u64) << 16) + u64::from(end.port)
}

// The flow of an IPv4 packet between ends as numbers. Which of them stands first is as good as random, so no branch
// depends on it.
pub(crate) fn flow_by_number(from: u64, to: u64, proto: u8, interface: u8) -> PlainFlow
    requires from { from < 2 ^ 48 }
    requires to { to < 2 ^ 48 }
    ensures { flow_in result ≡ Flows.flow_by_number proto interface from to }
{
    PlainFlow {
        key: key_words(from.min(to), from.max(to), proto, interface),
        side: u8::from(to < from),
    }
}

/// The flow of a plain packet at the interface with this number: what `orient` answers of each five-tuple that says the
/// same.
#[inline(always)]
pub fn plain_flow(packet: PlainPacket, interface: u8) -> PlainFlow
    ensures flow { (tuple : TupleFacts) → tuple.interface ≡ interface → IsTupleOf packet tuple
        → flow_of tuple ≡ Some (flow_in result) }
    ensures packet { packet_in result packet.flags ≡ packet }
    ensures side { result.side < 2 }
{
    let from = End {
        address: u128::from(packet.source),
        port: packet.from,
    };
    let to = End {
        address: u128::from(packet.dest),
        port: packet.to,
    };
    flow_by_number(end_number(from), end_number(to), packet.proto, interface)
}
