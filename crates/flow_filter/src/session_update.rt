//! The one update of a packet that takes part in sessions.
ghost use Rattle.std.specs.Prelude.{◌≡◌};
ghost use Rattle.session_state.specs.Decisions.{patch_facts};
ghost use Rattle.flow_filter.specs.Updates;
ghost use Rattle.flow_filter.specs.PacketFlows.{update_by};

use crate::packet_flow::PacketFlow;
use acl_policy::Action;
use packet_view::Fields;
use session_state::{PacketPatch, Timeouts};

// The flags of a packet's fields, with which the update of its session is made.
fn flags_of(fields: &Fields) -> u8
    ensures { result ≡ Updates.flags_of fields.now }
{
    match fields {
        Fields::Tcp { flags, .. } => *flags,
        _ => 0,
    }
}

// Whether a packet updates a session of TCP.
fn is_tcp(fields: &Fields) -> bool
    ensures { result ≡ Updates.is_tcp fields.now }
{
    matches!(fields, Fields::Tcp { .. })
}

// Whether a packet's update may enter a session, by the rule that decides it.
fn reflects(ruling: Option<(usize, Action)>) -> bool
    ensures { result ≡ Updates.reflects ruling }
{
    matches!(ruling, Some((_, Action::Reflect)))
}

/// The update that the packet makes of its flow's session, where the rules say this of it.
pub fn patch_of(
    times: &Timeouts,
    packet: &PacketFlow<'_>,
    ruling: Option<(usize, Action)>,
) -> PacketPatch
    ensures { patch_facts result ≡ (update_by times.now packet.now ruling).patch }
{
    PacketPatch {
        moment: packet.moment,
        side: packet.flow.side,
        flags: flags_of(&packet.tuple.fields),
        tcp: is_tcp(&packet.tuple.fields),
        reflects: reflects(ruling) && packet.flow.starts,
        times: *times,
    }
}
