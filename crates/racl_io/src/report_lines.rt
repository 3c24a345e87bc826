//! Packets that are told in the report's lines.
ghost use Rattle.std.specs.Prelude.{◌≡◌, ◌+◌, ◌-◌, ◌<◌, ◌^◌, IfOk, Some, length};
ghost use Rattle.packet_view.specs.CheckedCaptures.{remaining};
ghost use Rattle.racl_io.specs.Reports;
ghost use Rattle.racl_io.specs.ShownReports.{line_shown};
ghost use Rattle.racl_io.specs.Tellings.{HasToldText, lines_in, named_wording, plain_wording};

use crate::device::Sink;
use crate::fault::Fault;
use crate::interface_name::Name;
use crate::lines_one_by_one::{PacketLine, write_packet_lines};
use crate::number_printing::Counter;
use crate::packet_lines::push_named_line;
use crate::report_piece::Piece;
use crate::shown_lines::write_lines_shown;
use crate::teller::Teller;
use crate::totals_and_truncation::{Captured, Totals, passed, write_ends, write_truncation};
use crate::whole_lines::{ReportPlace, write_lines_whole};
use packet_view::{Packet, Packets};
use session_state::{Shown, Verdict, has_line};
use std::alloc::{AllocError, Global};

// What tells a packet in the report's line with the name of the packet's interface, where it is shown.
#[derive(Clone, Copy)]
struct NamedLine {
    shown: Shown,
}

impl PacketLine for NamedLine {
    ghost line = { λ named n packet verdict. line_shown named.shown (Some packet.interface) n verdict };

    fn push(&self, piece: &mut Piece, number: u64, packet: Packet<'_>, verdict: Verdict) {
        if has_line(self.shown, verdict) {
            let counted = Counter::at(number);
            let name = Name::of(Some(packet.interface));
            push_named_line(piece, &counted, &name, verdict);
        }
    }
}

// Writes the lines of packets, each of which names its packet's interface.
fn write_named<W: Sink>(
    writer: &mut W,
    piece: &mut Piece,
    shown: Shown,
    others: usize,
    packets: Packets<'_>,
    verdicts: &[Verdict],
) -> Result<u64, Fault>
    requires sound { W.failures writer.old < 2 ^ 64 - 1 }
    requires fits { others + length verdicts.now < 2 ^ 64 - 1 }
    ensures told { HasToldText W.bytes W.failures writer.old writer.new (lines_in (named_wording shown) (others + 1) (remaining packets.entry) verdicts.now) result }
    ensures passed { IfOk result (λ n. n ≡ Reports.passed verdicts.now) }
{
    let line = NamedLine { shown };
    let first = others as u64 + 1;
    let mut packets = packets;
    match write_packet_lines(writer, piece, &line, first, &mut packets, verdicts) {
        Ok(()) => Ok(passed(verdicts)),
        Err(fault) => Err(fault),
    }
}

// Writes the lines of packets, which name no interface.
fn write_plain<W: Sink>(
    writer: &mut W,
    piece: &mut Piece,
    shown: Shown,
    others: usize,
    packets: Packets<'_>,
    verdicts: &[Verdict],
) -> Result<u64, Fault>
    requires sound { W.failures writer.old < 2 ^ 64 - 1 }
    requires each { length verdicts.now ≡ length (remaining packets) }
    requires fits { others + length verdicts.now < 2 ^ 64 - 1 }
    ensures told { HasToldText W.bytes W.failures writer.old writer.new (lines_in (plain_wording shown) (others + 1) (remaining packets.entry) verdicts.now) result }
    ensures passed { IfOk result (λ n. n ≡ Reports.passed verdicts.now) }
{
    let _packets = packets;
    let place = ReportPlace {
        named: None,
        others,
    };
    match shown {
        Shown::Every => write_lines_whole(writer, piece, place, verdicts),
        shown => write_lines_shown(writer, piece, shown, place, verdicts),
    }
}

/// What tells packets in the report's lines, and of these those that are shown.
#[derive(Drop)]
pub struct ReportLines {
    pub shown: Shown,
    /// Whether each line names its packet's interface; else none does.
    pub names: bool,
    piece: Piece,
}

impl ReportLines {
    pub fn new(alloc: Global, shown: Shown, names: bool) -> Result<ReportLines, AllocError>
        ensures { IfOk result (λ lines. (lines.shown ≡ shown) × (lines.names ≡ names)) }
    {
        let piece = Piece::new(alloc)?;
        Ok(ReportLines {
            shown,
            names,
            piece,
        })
    }
}

impl Teller for ReportLines {
    ghost use Rattle.racl_io.specs.Tellings.{lines_naming, name_where};

    ghost wording = { λ lines. lines_naming (name_where lines.names) lines.shown };

    fn tell<W: Sink>(
        &mut self,
        writer: &mut W,
        others: usize,
        packets: Packets<'_>,
        verdicts: &[Verdict],
    ) -> Result<u64, Fault> {
        match self.names {
            true => write_named(
                writer,
                &mut self.piece,
                self.shown,
                others,
                packets,
                verdicts,
            ),
            false => write_plain(
                writer,
                &mut self.piece,
                self.shown,
                others,
                packets,
                verdicts,
            ),
        }
    }

    fn tell_cut<W: Sink>(&mut self, writer: &mut W, captured: &Captured) -> Result<(), Fault> {
        write_truncation(writer, &mut self.piece, captured)
    }

    fn tell_end<W: Sink>(
        &mut self,
        writer: &mut W,
        captures: &[Captured],
        totals: &Totals,
    ) -> Result<(), Fault> {
        write_ends(writer, &mut self.piece, captures, totals)
    }
}
