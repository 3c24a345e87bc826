//! What a packet's frame is at its interface, by a policy.
ghost use Rattle.std.specs.Prelude.{◌≡◌};
ghost use Rattle.packet_view.specs.Captures.{packet_facts};
ghost use Rattle.packet_view.specs.Frames.{IsFrame, frame_facts};
ghost use Rattle.acl_policy.specs.Policies.{policy_facts, section_of};
ghost use Rattle.packet_words.specs.inner.ViewedPackets.{view_at};

use acl_policy::Policy;
use packet_view::{Frame, Mac, Packet, view};

// The own address of an interface, by which the direction of a packet, and so of its deciding rule, is seen.
fn own_address_at(policy: &Policy, interface: u8) -> Option<Mac>
    ensures { result ≡ (section_of interface (policy_facts policy.now)).own }
{
    match policy.section(interface) {
        Some(section) => section.own,
        None => None,
    }
}

/// What a packet's frame is at its interface, which has the own address that the policy names.
pub fn packet_as_seen(policy: &Policy, packet: Packet<'_>) -> Frame
    ensures shown { let at = (packet_facts packet.entry).interface in
        IsFrame (packet_facts packet.entry).frame (record { number = at; own = (section_of at (policy_facts policy.now)).own }) (frame_facts result) }
    ensures only { frame_facts result ≡ view_at (policy_facts policy.now) (packet_facts packet.entry) }
{
    let own = own_address_at(policy, packet.interface);
    view(packet.frame, packet.interface, own)
}
