//! Plain frames that were read once, and then are seen at any interface.
ghost use Rattle.std.specs.Prelude.{IfSome};
ghost use Rattle.packet_view.specs.PlainFrames.{IsPlainFrame};

use crate::frame::Frame;
use crate::frame_direction::{direction_from, sender_of};
use crate::plain_packet::{PlainFrame, plain};
use crate::tuple::Mac;

/// What a plain frame has, wherever it is seen. Whoever deals many packets asks this, and hands it on.
///
/// `None` says nothing of the frame: `view` tells what it is.
#[inline(always)]
pub fn read_plain_frame(frame: &[u8]) -> Option<PlainFrame>
    ensures { IfSome result (IsPlainFrame frame.now) }
{
    let packet = plain(frame)?;
    Some(PlainFrame {
        packet,
        sender: sender_of(frame),
    })
}

impl PlainFrame {
    ghost use Rattle.std.specs.Prelude.{◌≡◌, List, ℕ};
    ghost use Rattle.packet_view.specs.Frames.{IsFrame, FrameFacts, frame_facts};
    ghost use Rattle.packet_view.specs.PlainFrames.{IsPlainFrame, IsTcpOrUdp};

    /// What each frame that has this is at the interface with this number and own address.
    #[inline(always)]
    pub fn at(&self, interface: u8, own: Option<Mac>) -> Frame
        requires { IsTcpOrUdp self.now.packet }
        ensures shown { (frame : List ℕ) → IsPlainFrame frame self.now
            → IsFrame frame (record { number = interface; own = own }) (frame_facts result) }
        ensures only { (frame : List ℕ) → IsPlainFrame frame self.now → (other : FrameFacts)
            → IsFrame frame (record { number = interface; own = own }) other → other ≡ frame_facts result }
    {
        Frame::Ip(
            direction_from(self.sender, own),
            self.packet.tuple(interface),
        )
    }
}
