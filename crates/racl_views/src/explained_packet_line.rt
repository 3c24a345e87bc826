//! Packets that are told in explained lines.
ghost use Rattle.std.specs.Prelude.{◌≡◌, None, Some, if◌then◌else◌};
ghost use Rattle.racl_views.specs.inner.Tellings.{entry_by, line_named};

use crate::explained_line::push_explained;
use crate::packet_entry::{PacketPlace, entry_of};
use crate::run_and_verdicts::Telling;
use packet_view::Packet;
use racl_io::{PacketLine, Piece};
use session_state::{Verdict, has_line};

/// What tells a packet in an explained line, where it is shown.
#[derive(Clone, Copy)]
pub struct ExplainedLine<'a, 'b> {
    pub telling: Telling<'a, 'b>,
    /// Whether each line names its packet's interface.
    pub names: bool,
}

// The interface that the line of a packet names, which was seen at this interface.
fn name_for(names: bool, interface: u8) -> Option<u8>
    ensures { result ≡ if names then Some interface else None }
{
    if names { Some(interface) } else { None }
}

impl<'a, 'b> PacketLine for ExplainedLine<'a, 'b> {
    ghost line = { λ told n packet verdict. line_named told.telling told.names n (entry_by told.telling packet verdict) };

    fn push(&self, piece: &mut Piece, number: u64, packet: Packet<'_>, verdict: Verdict) {
        let telling = self.telling;
        if !has_line(telling.shown, verdict) {
            return;
        }
        let entry = entry_of(telling.policy, &telling.table.lines, packet, verdict);
        let place = PacketPlace {
            named: name_for(self.names, entry.interface),
            number,
        };
        push_explained(piece, &telling.table.texts, place, &entry);
    }
}
