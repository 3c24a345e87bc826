//! What is told of a packet, and where.
ghost use Rattle.std.specs.Prelude.{◌≡◌, List};
ghost use Rattle.packet_view.specs.Captures.{packet_facts};
ghost use Rattle.acl_policy.specs.Policies.{policy_facts};
ghost use Rattle.racl_views.specs.declared.rule_numbering.RuleLine as code;
ghost use Rattle.racl_views.specs.Entries.{entry_facts};
ghost use Rattle.racl_views.specs.inner.EntryLists.{AreAtPlaces, entry_on};

use crate::deciding_rule::rule_on;
use crate::rule_lines_by_place::line_of;
use acl_policy::Policy;
use packet_view::{Frame, Packet};
use packet_words::packet_as_seen;
use session_state::Verdict;

/// What is told of a packet: its verdict, the interface where it was seen, in which second and how many microseconds
/// after it began, how many of its bytes were kept, and what its frame is.
#[derive(Clone, Copy)]
pub struct Entry {
    pub verdict: Verdict,
    pub interface: u8,
    pub moment: u32,
    pub micros: u32,
    pub bytes: u64,
    pub frame: Frame,
    /// The line of the rule that decided it, counted from 1; 0 where none did.
    pub line: u64,
}

/// Where a packet stands in what is told.
#[derive(Clone, Copy)]
pub struct PacketPlace {
    /// The interface that its line names, where it names one.
    pub named: Option<u8>,
    /// Its number among all packets.
    pub number: u64,
}

/// What is told of a packet, with the line of the rule that decided it, which is found among the lines by place.
pub fn entry_of(policy: &Policy, lines: &[u64], packet: Packet<'_>, verdict: Verdict) -> Entry
    ensures { (rules : List code.RuleLine) → AreAtPlaces lines.now rules
        → entry_facts result ≡ entry_on (policy_facts policy.now) rules (packet_facts packet.entry) verdict }
{
    let frame = packet_as_seen(policy, packet);
    let line = line_of(lines, rule_on(packet.interface, frame, verdict));
    Entry {
        verdict,
        interface: packet.interface,
        moment: packet.moment,
        micros: packet.micros,
        bytes: packet.frame.len() as u64,
        frame,
        line,
    }
}
