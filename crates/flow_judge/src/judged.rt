//! What a judge answers of a packet.
ghost use Rattle.std.specs.Prelude.{◌≡◌};
ghost use Rattle.packet_view.specs.Frames.{frame_facts};
ghost use Rattle.flow_judge.specs.Ways.{way_of};

use packet_view::{Direction, Frame};
use session_state::Verdict;

/// A packet's verdict, and which way it goes at its interface.
#[derive(Clone, Copy, Debug, PartialEq, Eq)]
pub struct Judged {
    pub verdict: Verdict,
    /// `None`: the frame shows no packet.
    pub direction: Option<Direction>,
}

/// Which way a frame's packet goes.
#[inline(always)]
pub fn direction_of(frame: &Frame) -> Option<Direction>
    ensures { result ≡ way_of (frame_facts frame.now) }
{
    match frame {
        Frame::Ip(direction, _) => Some(*direction),
        Frame::NotIp | Frame::Malformed | Frame::Short => None,
    }
}
