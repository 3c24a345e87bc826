//! A packet whose frame was viewed.
ghost use Rattle.std.specs.Prelude.{◌≡◌, ◌<◌};
ghost use Rattle.std.specs.Option.{ForSome};
ghost use Rattle.packet_view.specs.Frames.{frame_facts};
ghost use Rattle.flow_dealing.specs.Dealings.{flow_of_frame};

use flow_dealing::HashedFlow;
use packet_view::Frame;

/// A packet whose frame was viewed. Its frame and flow stay where they were made.
#[derive(Clone, Copy)]
pub struct ViewedPacket<'a> {
    /// When the packet came, in seconds.
    pub moment: u32,
    pub frame: &'a Frame,
    pub hashed: &'a HashedFlow,
    pub ghost shown: { hashed.now.flow ≡ flow_of_frame (frame_facts frame.now) },
    pub ghost of_two: { ForSome hashed.now.flow (λ f. f.side < 2) },
}

impl<'a> ViewedPacket<'a> {
    ghost use Rattle.std.specs.Prelude.{◌≡◌, Option};
    ghost use Rattle.packet_view.specs.Captures.{PacketFacts};
    ghost use Rattle.packet_view.specs.Frames.{frame_facts};
    ghost use Rattle.packet_view.specs.declared.tuple.Mac.{Mac};
    ghost use Rattle.flow_filter.specs.Readings.{IsSeenAt};
    ghost use Rattle.flow_dealing.specs.Dealings.{flow_of_frame};
    ghost use Rattle.flow_workers.specs.inner.ViewedPackets.{IsViewed};

    /// A packet of this second, whose frame turned out to be this and shows this flow.
    pub fn new(moment: u32, frame: &'a Frame, hashed: &'a HashedFlow) -> ViewedPacket<'a>
        requires shown { hashed.now.flow ≡ flow_of_frame (frame_facts frame.now) }
        requires side { ForSome hashed.now.flow (λ f. f.side < 2) }
        ensures seen { (own : Option Mac) (packet : PacketFacts) → packet.moment ≡ moment
            → IsSeenAt own packet (frame_facts frame.now) → IsViewed own packet result }
        ensures frame { result.frame.now ≡ frame.now }
        ensures hashed { result.hashed.now ≡ hashed.now }
    {
        ViewedPacket {
            moment,
            frame,
            hashed,
        }
    }
}
