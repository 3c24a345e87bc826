//! Who judges the packets of a run.
ghost use Rattle.std.specs.Prelude.{◌≡◌, IfOk, List, length};
ghost use Rattle.packet_view.specs.Captures.{PacketFacts};
ghost use Rattle.packet_view.specs.CheckedCaptures.{remaining};
ghost use Rattle.filter_run.specs.Judges.{Follows, MayFollow};

use packet_view::Packets;
use std::alloc::AllocError;

/// Who judges packets, one batch after the other: by one policy a verdict on each, by two a pair of them.
pub trait Judge<V> {
    /// Whether the first, after these packets, of which it said this, and both are all so far, is the second.
    ghost became: { Self → List PacketFacts → List V → Self → Type 0 };

    /// Judges the next batch. An error says that memory was refused; then it judges no more.
    fn judge(&mut self, packets: Packets<'_>) -> Result<Vec<V>, AllocError>
        requires { MayFollow became self.old (length (remaining packets)) }
        ensures follows { IfOk result (λ said. Follows became self.old (remaining packets.entry) said.items self.new) }
        ensures each { IfOk result (λ said. length said.items ≡ length (remaining packets.entry)) };
}
