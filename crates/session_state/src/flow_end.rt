//! The ends of a flow, and which of two stands first.
ghost use Rattle.std.specs.Prelude.{◌≡◌};
ghost use Rattle.packet_view.specs.Tuples.{tuple_facts};
ghost use Rattle.session_state.specs.Flows.{receiver_of, sender_of, stands_first};

use packet_view::{Fields, Tuple};

/// One end of a flow.
#[derive(Clone, Copy, PartialEq, Eq)]
pub struct End {
    pub address: u128,
    pub port: u16,
}

/// Whether an end of a flow stands before another, or is the same: by address, and then by port.
pub fn is_first(one: End, other: End) -> bool
    ensures { result ≡ stands_first one other }
{
    one.address < other.address || one.address == other.address && one.port <= other.port
}

/// The end of its flow that a packet comes from. Without ports its port is 0.
pub fn sender(tuple: &Tuple) -> End
    ensures { result ≡ sender_of (tuple_facts tuple.now) }
{
    let port = match tuple.fields {
        Fields::Ports { from, .. } | Fields::Tcp { from, .. } => from,
        Fields::Absent | Fields::Icmp { .. } => 0,
    };
    End {
        address: tuple.source,
        port,
    }
}

/// The end of its flow that a packet goes to.
pub fn receiver(tuple: &Tuple) -> End
    ensures { result ≡ receiver_of (tuple_facts tuple.now) }
{
    let port = match tuple.fields {
        Fields::Ports { to, .. } | Fields::Tcp { to, .. } => to,
        Fields::Absent | Fields::Icmp { .. } => 0,
    };
    End {
        address: tuple.dest,
        port,
    }
}
