//! Captures whose first frames have nothing to do with the address of a `mac` line.
ghost use Rattle.std.specs.Prelude.{◌≡◌, ℕ, IfSome, IsTrue, None, false, take};
ghost use Rattle.packet_view.specs.CheckedCaptures.{remaining};
ghost use Rattle.acl_policy.specs.Policies.{section_facts};
ghost use Rattle.policy_check.specs.Foreign.{AreForeign, IsForOne, IsForeignOf, IsOf};

use acl_policy::Section;
use packet_view::{Mac, Packets, capture_header, front_records};
use thiserror::Error;

/// That this is so of the interface with this number.
#[derive(Clone, Copy, Debug, PartialEq, Eq, Error)]
#[error("none of the first frames of interface {0} is from or to the address of its mac line")]
pub struct ForeignMac(pub u8);

/// Whether bytes of a captured frame begin with the MAC address of a `mac` line.
pub fn begins_with(bytes: &[u8], own: Mac) -> bool
    ensures yes { IsTrue result → take 6 bytes.now ≡ own.0 }
    ensures no { result ≡ false → take 6 bytes.now ≡ own.0 → ⊥ }
{
    bytes.len() >= 6 && bytes[..6] == own.0[..]
}

// Whether a captured frame is from or to the MAC address of a `mac` line.
fn is_of(frame: &[u8], own: Mac) -> bool
    ensures yes { IsTrue result → IsOf own.0 frame.now }
    ensures no { result ≡ false → IsOf own.0 frame.now → ⊥ }
{
    begins_with(frame, own) || begins_with(&frame[frame.len().min(6)..], own)
}

// Whether a frame is for the MAC address of one station, and not for a group.
fn is_for_one(frame: &[u8]) -> bool
    ensures yes { IsTrue result → IsForOne frame.now }
    ensures no { result ≡ false → IsForOne frame.now → ⊥ }
{
    match frame {
        [byte, ..] => byte % 2 == 0,
        [] => false,
    }
}

// Whether some packet of a capture is for one station, and none is from or to the MAC address of the `mac` line.
fn are_foreign(own: Mac, packets: Packets<'_>) -> bool
    ensures yes { IsTrue result → AreForeign own.0 (remaining packets.entry) }
    ensures no { result ≡ false → AreForeign own.0 (remaining packets.entry) → ⊥ }
{
    let mut left = packets;
    let mut some = false;
    'packets: while let Some(packet) = left.next() {
        if is_of(packet.frame, own) {
            return false;
        }
        some = some || is_for_one(packet.frame);
    }
    some
}

/// That the frames that stand whole in these first bytes of the capture of a section's interface have nothing to do with the
/// address of its `mac` line, though one at least is for one station; None where that isn't so.
pub fn foreign_mac(section: &Section, front: &[u8]) -> Option<ForeignMac>
    ensures holds { IfSome result (λ told. IsForeignOf (section_facts section.now) front.now told.0) }
    ensures none { result ≡ None → (number : ℕ) → IsForeignOf (section_facts section.now) front.now number → ⊥ }
{
    let Some(own) = section.own else {
        return None;
    };
    let Ok(order) = capture_header(front) else {
        return None;
    };
    let first = front_records(&front[24..], order, section.interface);
    if are_foreign(own, Packets::Records(first.records)) {
        Some(ForeignMac(section.interface))
    } else {
        None
    }
}
