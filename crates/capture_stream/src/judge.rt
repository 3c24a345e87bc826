//! Who judges packets.
ghost use Rattle.std.specs.Prelude.{IfOk, List, length};
ghost use Rattle.packet_view.specs.Captures.{PacketFacts};
ghost use Rattle.packet_view.specs.CheckedCaptures.{remaining};
ghost use Rattle.session_state.specs.declared.verdict.Verdict.{Verdict};
ghost use Rattle.capture_stream.specs.Histories.{AreRight, Follows, MayFollow};

use packet_view::Packets;
use session_state::Verdict;
use std::alloc::AllocError;

/// Those who judge packets one part after the other.
pub trait Judge {
    /// Whether the first, after these packets, of which they said this, and both are all so far, are the second.
    ghost became: { Self → List PacketFacts → List Verdict → Self → Type 0 };

    /// Whether what those who began so said of these packets is known to be right.
    ghost judged: { Self → List PacketFacts → List Verdict → Type 0 };

    /// They judge these packets too, which follow the ones so far, and hand over the verdicts that they don't keep. An error
    /// says that memory was refused; then they judge no more.
    fn judge(&mut self, packets: Packets<'_>) -> Result<Vec<Verdict>, AllocError>
        requires { MayFollow became self.old (length (remaining packets)) }
        ensures follows { IfOk result (λ verdicts. Follows became self.old (remaining packets.entry) verdicts.items self.new) }
        ensures right { IfOk result (λ verdicts. AreRight became judged self.old (remaining packets.entry) verdicts.items) };
}
