//! A packet and its flow.
ghost use Rattle.std.specs.Prelude.{◌≡◌, ◌<◌, Some};
ghost use Rattle.packet_view.specs.Tuples.{tuple_facts};
ghost use Rattle.session_state.specs.Flows.{flow_of};

use packet_view::{Direction, Tuple};
use session_state::Flow;

/// A packet that takes part in sessions.
#[derive(Clone, Copy)]
pub struct PacketFlow<'a> {
    /// When the packet came, in seconds.
    pub moment: u32,
    pub direction: Direction,
    pub tuple: &'a Tuple,
    pub flow: &'a Flow,
    pub ghost of_tuple: { flow_of (tuple_facts tuple.now) ≡ Some flow.now },
    pub ghost of_two: { flow.now.side < 2 },
}

/// A copy of a packet's tuple, field by field. A copy of the whole would take the bytes between its fields along, and a
/// reference to where a packet was viewed would keep each packet's tuple in memory.
#[inline(always)]
pub fn tuple_copy(tuple: &Tuple) -> Tuple
    ensures { tuple_facts result ≡ tuple_facts tuple.now }
{
    Tuple {
        interface: tuple.interface,
        family: tuple.family,
        source: tuple.source,
        dest: tuple.dest,
        proto: tuple.proto,
        fields: tuple.fields,
    }
}
