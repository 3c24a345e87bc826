//! The lines of packets that are changed.
ghost use Rattle.std.specs.Prelude.{◌≡◌, ◌+◌, ◌*◌, ◌-◌, ◌<◌, ◌≤◌, ◌^◌, ◌++◌, [], codes, decimal, length};
ghost use Rattle.acl_policy.specs.Policies.{policy_facts};
ghost use Rattle.racl_io.specs.Reports.{text_of};
ghost use Rattle.racl_io.specs.Sinks.{HasPutFront};
ghost use Rattle.compared_verdicts.specs.Changes.{change_facts};
ghost use Rattle.compared_verdicts.specs.inner.ChangeLines.{line_by, lines_told};

use acl_policy::Policy;
use packet_view::Packet;
use packet_words::{packet_as_seen, push_packet, push_verdict};
use racl_io::{Fault, Numeral, Piece, Sink, write_all};
use session_state::Verdict;

/// How many packets have their lines in one piece. A line has at most 530 bytes.
const LINES: usize = 480;

/// A policy, and the one that is to take its place.
#[derive(Clone, Copy)]
pub struct PolicyPair<'p> {
    pub before: &'p Policy,
    pub after: &'p Policy,
}

/// A packet on which two policies say different things.
#[derive(Clone, Copy)]
pub struct Change<'a> {
    /// The packet's number in its capture, from 1.
    pub number: u64,
    pub packet: Packet<'a>,
    /// Its verdict by the policy so far.
    pub before: Verdict,
    /// Its verdict by the other one.
    pub after: Verdict,
}

// The packet's number, and its verdicts.
fn push_verdicts(piece: &mut Piece, change: &Change<'_>)
    requires { length piece.old + 116 ≤ 262144 }
    ensures text { piece.new ≡ piece.old ++ (decimal change.now.number ++ (codes " " ++ (text_of change.now.before ++ (codes " -> " ++ text_of change.now.after)))) }
    ensures short { length piece.new ≤ length piece.old + 116 }
{
    Numeral::of(change.number).push(piece);
    piece.push(b" ");
    push_verdict(piece, change.before);
    piece.push(b" -> ");
    push_verdict(piece, change.after);
}

// The line of a packet, which is seen as by the policy that is to take the other's place.
fn push_change(piece: &mut Piece, policy: &Policy, change: &Change<'_>)
    requires { length piece.old + 530 ≤ 262144 }
    ensures text { piece.new ≡ piece.old ++ line_by (policy_facts policy.now) (change_facts change.now) }
    ensures short { length piece.new ≤ length piece.old + 530 }
{
    let frame = packet_as_seen(policy, change.packet);
    push_verdicts(piece, change);
    push_packet(piece, change.packet.interface, change.packet.moment, &frame);
    piece.push(b"\n");
}

fn push_changes<'a>(piece: &mut Piece, policy: &Policy, changes: &'a [Change<'a>])
    requires empty { piece.old ≡ [] }
    requires few { length changes.now ≤ 480 }
    ensures { piece.new ≡ lines_told (policy_facts policy.now) changes.now }
{
    'lines: for change in changes {
        push_change(piece, policy, change);
    }
}

/// Writes the lines of these packets, which are seen as by the policy that is to take the other's place.
pub fn write_changes<'a, W: Sink>(
    writer: &mut W,
    piece: &mut Piece,
    policy: &Policy,
    changes: &'a [Change<'a>],
) -> Result<(), Fault>
    requires { W.failures writer.old < 2 ^ 64 - 1 }
    ensures { HasPutFront W.bytes W.failures writer.old writer.new (lines_told (policy_facts policy.now) changes.now) result }
{
    let mut from = 0;
    'pieces: while from < changes.len() {
        let to = changes.len().min(from + LINES);
        piece.clear();
        push_changes(piece, policy, &changes[from..to]);
        match write_all(writer, piece.as_slice()) {
            Ok(()) => {}
            Err(fault) => return Err(fault),
        }
        from = to;
    }
    Ok(())
}
