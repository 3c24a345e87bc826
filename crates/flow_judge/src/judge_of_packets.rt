//! Packets judged.
ghost use Rattle.std.specs.Prelude.{◌≡◌};
ghost use Rattle.packet_view.specs.Captures.{packet_facts};
ghost use Rattle.packet_view.specs.Frames.{FrameFacts, frame_facts};
ghost use Rattle.acl_policy.specs.Policies.{section_of};
ghost use Rattle.flow_filter.specs.Readings.{IsSeen};
ghost use Rattle.flow_judge.specs.Judges.{TellsJudged};

use crate::judge::Judge;
use crate::judged::{Judged, direction_of};
use bihash_table::Contended;
use bihash_words::Shape;
use flow_workers::try_judge_at;
use packet_view::{Frame, Mac, Packet, plain_frame, view};

impl<A: Shape, B: Shape> Judge<A, B> {
    // The own address that the policy names for an interface.
    #[inline(always)]
    fn own_at(&self, interface: u8) -> Option<Mac>
        ensures { result ≡ (section_of interface self.now.policy).own }
    {
        self.filter.at(interface).own
    }

    // The verdict on a packet whose frame turned out to be this.
    #[inline(always)]
    fn judge_seen(&mut self, packet: &Packet<'_>, seen: &Frame) -> Result<Judged, Contended>
        requires seen { IsSeen self.old.policy (packet_facts packet.now) (frame_facts seen.now) }
        requires only { (other : FrameFacts) → IsSeen self.old.policy (packet_facts packet.now) other → other ≡ frame_facts seen.now }
        ensures { TellsJudged ⟦<A as Shape>⟧ ⟦<B as Shape>⟧ (packet_facts packet.now) self.old self.new result }
    {
        let filter = self.filter.at(packet.interface);
        let tables = self.tables.tables();
        match try_judge_at(&filter, tables, &mut self.callers, packet, seen) {
            Ok(verdict) => {
                self.counts.count(verdict);
                Ok(Judged {
                    verdict,
                    direction: direction_of(seen),
                })
            }
            Err(refused) => Err(refused),
        }
    }

    // The verdict on a frame by its view. Few frames aren't plain, and the path of plain ones is shorter without this.
    #[inline(never)]
    fn judge_by_view(&mut self, packet: &Packet<'_>) -> Result<Judged, Contended>
        ensures { TellsJudged ⟦<A as Shape>⟧ ⟦<B as Shape>⟧ (packet_facts packet.now) self.old self.new result }
    {
        let own = self.own_at(packet.interface);
        let seen = view(packet.frame, packet.interface, own);
        self.judge_seen(packet, &seen)
    }

    /// The verdict on a frame that was seen at this interface in this second, by one try. `Contended`: another judge's change
    /// or lock was met. All that it does of a plain frame is within the loop in which it is called: as a call it took a tenth
    /// more instructions.
    #[inline(always)]
    pub fn judge(&mut self, interface: u8, moment: u32, frame: &[u8]) -> Result<Judged, Contended>
        ensures { TellsJudged ⟦<A as Shape>⟧ ⟦<B as Shape>⟧
            (record { interface = interface; moment = moment; micros = 0; frame = frame.now }) self.old self.new result }
    {
        let packet = Packet {
            interface,
            moment,
            micros: 0,
            frame,
        };
        let own = self.own_at(interface);
        let Some(seen) = plain_frame(frame, interface, own) else {
            return self.judge_by_view(&packet);
        };
        self.judge_seen(&packet, &seen)
    }
}
