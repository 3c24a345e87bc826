//! Lines of packets, each of which is made by itself, written in pieces.
ghost use Rattle.std.specs.Prelude.{◌≡◌, ◌+◌, ◌-◌, ◌<◌, ◌≤◌, ◌^◌, ◌++◌, ℕ, [], List, OnOk, drop, length};
ghost use Rattle.packet_view.specs.Captures.{PacketFacts, packet_facts};
ghost use Rattle.packet_view.specs.CheckedCaptures.{remaining};
ghost use Rattle.session_state.specs.declared.verdict.Verdict.{Verdict};
ghost use Rattle.racl_io.specs.Sinks.{HasPutFront};
ghost use Rattle.racl_io.specs.Tellings.{lines_by};
ghost use Rattle.racl_io.specs.inner.Pieces.{HasPushed};

use crate::device::Sink;
use crate::fault::Fault;
use crate::reading_and_writing::write_all;
use crate::report_piece::Piece;
use packet_view::{Packet, Packets};
use session_state::Verdict;

/// Up to how many bytes a piece has room for one more line.
const FULL: usize = 261_402;

/// What tells each packet in one line, which has at most 742 bytes.
pub trait PacketLine {
    /// The line of the packet with this number, or nothing where it has none.
    ghost line: { Self → ℕ → PacketFacts → Verdict → List ℕ };

    /// Puts the line of the packet with this number behind what the piece has.
    fn push(&self, piece: &mut Piece, number: u64, packet: Packet<'_>, verdict: Verdict)
        requires { length piece.old + 742 ≤ 262144 }
        ensures { piece.new ≡ piece.old ++ line self.now number (packet_facts packet.entry) verdict };
}

// Sees that the piece has room for one more line.
fn make_room_for_line<W: Sink>(writer: &mut W, piece: &mut Piece) -> Result<(), Fault>
    requires { W.failures writer.old < 2 ^ 64 - 1 }
    ensures pushed { HasPushed W.bytes W.failures writer.old writer.new piece.old piece.new [] result }
    ensures room { OnOk result (length piece.new + 742 ≤ 262144) }
{
    if piece.as_slice().len() <= FULL {
        return Ok(());
    }
    match write_all(writer, piece.as_slice()) {
        Ok(()) => {
            piece.clear();
            Ok(())
        }
        Err(fault) => Err(fault),
    }
}

// Puts the line of a packet into the piece, after what the piece had was written where it had no room.
fn tell_in_line<W: Sink, L: PacketLine>(
    writer: &mut W,
    piece: &mut Piece,
    line: &L,
    number: u64,
    packet: Packet<'_>,
    verdict: Verdict,
) -> Result<(), Fault>
    requires { W.failures writer.old < 2 ^ 64 - 1 }
    ensures { HasPushed W.bytes W.failures writer.old writer.new piece.old piece.new (L.line line.now number (packet_facts packet.entry) verdict) result }
{
    match make_room_for_line(writer, piece) {
        Ok(()) => {
            line.push(piece, number, packet, verdict);
            Ok(())
        }
        Err(fault) => Err(fault),
    }
}

/// Writes the lines of the packets with these verdicts, of which the first has this number. They are taken from the packets.
pub fn write_packet_lines<W: Sink, L: PacketLine>(
    writer: &mut W,
    piece: &mut Piece,
    line: &L,
    first: u64,
    packets: &mut Packets<'_>,
    verdicts: &[Verdict],
) -> Result<(), Fault>
    requires sound { W.failures writer.old < 2 ^ 64 - 1 }
    requires fits { first + length verdicts.now < 2 ^ 64 }
    ensures put { HasPutFront W.bytes W.failures writer.old writer.new (lines_by (L.line line.now) first (remaining packets.old) verdicts.now) result }
    ensures left { OnOk result (remaining packets.new ≡ drop (length verdicts.now) (remaining packets.old)) }
{
    piece.clear();
    let mut number = first;
    'verdicts: for verdict in verdicts {
        let Some(packet) = packets.next() else {
            return write_all(writer, piece.as_slice());
        };
        match tell_in_line(writer, piece, line, number, packet, *verdict) {
            Ok(()) => {}
            Err(fault) => return Err(fault),
        }
        number += 1;
    }
    write_all(writer, piece.as_slice())
}
