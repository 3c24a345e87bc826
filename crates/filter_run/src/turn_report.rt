//! The report on captures whose bytes are at hand, whose packets are told in lines, one capture after the other.
ghost use Rattle.std.specs.Prelude.{◌≡◌, ◌⊎◌, ◌-◌, ◌<◌, ◌^◌, [], IfErr, IfOk, List};
ghost use Rattle.packet_view.specs.Captures.{PacketFacts};
ghost use Rattle.racl_io.specs.CapturePackets.{HavePacketsTold};
ghost use Rattle.racl_io.specs.declared.fault.Fault.TheVariants.{Memory, TooLarge, Write};
ghost use Rattle.capture_stream.specs.Lives.{AreCounted};
ghost use Rattle.filter_run.specs.TurnReports.{HasToldInTurn};

use crate::captures_in_turn::CapturesInTurn;
use crate::lines_in_turn::LinesInTurn;
use crate::one_filter::OneFilter;
use crate::running::run;
use crate::told_lines::ToldLines;
use capture_stream::Judge;
use racl_io::{CaptureBytes, Captured, Fault, Sink, Teller, Totals, is_truncated};
use std::alloc::Global;

/// Captures whose bytes are at hand, and what the report tells of each.
#[derive(Clone, Copy)]
pub struct CapturesAtHand<'c> {
    pub captures: &'c [CaptureBytes],
    pub told: &'c [Captured],
}

/// What came of captures in turn whose packets were told.
#[derive(Drop)]
pub struct ReportedTurns<J> {
    /// Who judged all packets.
    pub judges: J,
    /// The totals over these.
    pub totals: Totals,
    /// Their latest second, where it was asked for; of no packet 0.
    pub latest: u32,
}

/// Judges the packets of captures, one capture after the other. Once those of a capture are judged, what is told of them is written,
/// numbered over all captures, and behind it the capture's end; the totals, which stand behind all of them, are for the caller to tell.
/// Where it is asked for, the latest second of all packets is noted. A fault leaves what was written. TooLarge: they have 2^62 packets.
pub fn report_in_turn<J: Judge + Drop, L: Teller, W: Sink>(
    alloc: Global,
    at_hand: CapturesAtHand<'_>,
    noted: bool,
    writer: &mut W,
    teller: &mut L,
    judges: J,
) -> Result<ReportedTurns<J>, Fault>
    requires begun { J.became judges [] [] judges }
    requires counts { AreCounted J.judged }
    requires right { (packets : List PacketFacts) × HavePacketsTold at_hand.captures.now at_hand.told.now packets }
    requires writer { W.failures writer.old < 2 ^ 64 - 1 }
    ensures told { IfOk result (λ reported. (packets : List PacketFacts) → HavePacketsTold at_hand.entry.captures.now at_hand.entry.told.now packets
        → HasToldInTurn J.became J.judged (L.wording teller.old) judges at_hand.entry.told.now packets noted (W.bytes writer.old) (W.bytes writer.new) reported) }
    ensures fault { IfErr result (λ fault. (fault ≡ Memory) ⊎ (fault ≡ Write) ⊎ (fault ≡ TooLarge)) }
    ensures sound { IfOk result (λ _. W.failures writer.new ≡ W.failures writer.old) }
    ensures same { IfOk result (λ _. L.wording teller.new ≡ L.wording teller.old) }
{
    let mut source = CapturesInTurn {
        alloc,
        captures: at_hand.captures,
        given: 0,
        packets: 0,
        noted,
        latest: 0,
    };
    let mut judge = OneFilter { inner: judges };
    let mut observer = LinesInTurn {
        lines: ToldLines::new(alloc, teller, writer),
        told: at_hand.told,
        given: 0,
    };
    match run(alloc, &mut source, &mut judge, &mut observer) {
        Ok(_) => {
            let totals = observer.lines.totals(is_truncated(at_hand.told));
            let OneFilter { inner } = judge;
            Ok(ReportedTurns {
                judges: inner,
                totals,
                latest: source.latest,
            })
        }
        Err(found) => Err(found.fault),
    }
}
