//! Who tells packets.
ghost use Rattle.std.specs.Prelude.{◌≡◌, ◌+◌, ◌-◌, ◌<◌, ◌^◌, IfOk, length};
ghost use Rattle.packet_view.specs.CheckedCaptures.{remaining};
ghost use Rattle.racl_io.specs.Reports;
ghost use Rattle.racl_io.specs.Tellings.{HasToldText, Wording, end_in, lines_in};

use crate::device::Sink;
use crate::fault::Fault;
use crate::totals_and_truncation::{Captured, Totals};
use packet_view::Packets;
use session_state::Verdict;

/// What tells packets one part after the other, where captures ended, and what stands behind all of them. A fault is Memory, and
/// then nothing of the part was written, or Write.
pub trait Teller {
    /// How it tells them.
    ghost wording: { Self → Wording };

    /// Tells these packets, before which there were so many others, and answers how many of them pass.
    fn tell<W: Sink>(
        &mut self,
        writer: &mut W,
        others: usize,
        packets: Packets<'_>,
        verdicts: &[Verdict],
    ) -> Result<u64, Fault>
        requires sound { W.failures writer.old < 2 ^ 64 - 1 }
        requires each { length verdicts.now ≡ length (remaining packets) }
        requires fits { others + length verdicts.now < 2 ^ 64 - 1 }
        ensures told { HasToldText W.bytes W.failures writer.old writer.new (lines_in (wording self.old) (others + 1) (remaining packets.entry) verdicts.now) result }
        ensures passed { IfOk result (λ n. n ≡ Reports.passed verdicts.now) }
        ensures same { wording self.new ≡ wording self.old };

    /// Tells, behind the packets of a capture that ended, whether it ended within a record.
    fn tell_cut<W: Sink>(&mut self, writer: &mut W, captured: &Captured) -> Result<(), Fault>
        requires sound { W.failures writer.old < 2 ^ 64 - 1 }
        ensures told { HasToldText W.bytes W.failures writer.old writer.new ((wording self.old).cut captured.now) result }
        ensures same { wording self.new ≡ wording self.old };

    /// Tells what stands behind all packets: of these captures, of which it wasn't told before, whether they ended within a record,
    /// and the totals.
    fn tell_end<W: Sink>(
        &mut self,
        writer: &mut W,
        captures: &[Captured],
        totals: &Totals,
    ) -> Result<(), Fault>
        requires sound { W.failures writer.old < 2 ^ 64 - 1 }
        ensures told { HasToldText W.bytes W.failures writer.old writer.new (end_in (wording self.old) captures.now totals.now) result };
}
