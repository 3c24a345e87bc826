//! What a reader of the standards expects of the definitions, proved of all frames at once.
ghost use Rattle.std.specs.Prelude.{◌≡◌, ◌↔◌, ◌++◌, ℕ, List, Option};
ghost use Rattle.packet_view.specs.declared.tuple.Direction.{Direction};
ghost use Rattle.packet_view.specs.declared.tuple.Family.{Family};
ghost use Rattle.packet_view.specs.declared.tuple.Mac.{Mac};
ghost use Rattle.packet_view.specs.Ethernet.{IsEthernet};
ghost use Rattle.packet_view.specs.Frames.{EndsWithin, Ip, IsFrame, FrameFacts, ether_type};
ghost use Rattle.packet_view.specs.Interfaces.{Interface};
ghost use Rattle.packet_view.specs.Tuples.{TupleFacts};

/// Each frame turns out to be one thing, and no other.
pub fn each_frame_has_one_view()
    ensures some { (frame : List ℕ) (at : Interface) → (view : FrameFacts) × IsFrame frame at view }
    ensures one { (frame : List ℕ) (at : Interface) (view other : FrameFacts) →
        IsFrame frame at view → IsFrame frame at other → view ≡ other }
{}

/// Bytes after the end of an IP packet that declares its length never change what the frame is.
pub fn bytes_after_the_packet_are_not_seen()
    ensures { (frame more source packet : List ℕ) (family : Family) → IsEthernet frame source (ether_type family) packet →
        EndsWithin family packet → (at : Interface) (view : FrameFacts) → IsFrame frame at view ↔ IsFrame (frame ++ more) at view }
{}

/// The interface's own address decides the way of a frame's packet, and nothing else of it.
pub fn own_address_decides_the_way_alone()
    ensures { (frame : List ℕ) (number : ℕ) (own other : Option Mac) (direction : Direction) (tuple : TupleFacts) →
        IsFrame frame (record { number = number; own = own }) (Ip direction tuple) →
        (way : Direction) × IsFrame frame (record { number = number; own = other }) (Ip way tuple) }
{}
