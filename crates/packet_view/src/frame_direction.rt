//! The way of a frame at its interface, by the interface's own address.
ghost use Rattle.std.specs.Prelude.{◌≡◌, ◌≤◌, ◌<◌, ℕ, List, length, slice_index};
ghost use Rattle.packet_view.specs.Bytes.{number_from};
ghost use Rattle.packet_view.specs.PlainFrames.{IsSender};
ghost use Rattle.packet_view.specs.inner.FrameSteps.{direction_of};

use crate::tuple::{Direction, Mac};
use byteorder::{BigEndian, ByteOrder};

/// The number of an Ethernet address of six bytes, by which a frame's direction is told.
#[inline]
fn address_number(bytes: &[u8]) -> u64
    requires { 6 ≤ length bytes.now }
    ensures number { result ≡ number_from 0 6 bytes.now }
    ensures bytes { (i : ℕ) → i < 6 → slice_index bytes.now i < 256 }
{
    (u64::from(BigEndian::read_u32(bytes)) << 16) + u64::from(BigEndian::read_u16(&bytes[4..]))
}

/// The number of the address that a frame with at least twelve bytes comes from.
#[inline]
pub fn sender_of(frame: &[u8]) -> u64
    requires { 12 ≤ length frame.now }
    ensures { IsSender frame.now result }
{
    address_number(&frame[6..12])
}

/// The way of a frame that comes from the address with this number.
#[inline]
pub fn direction_from(sender: u64, own: Option<Mac>) -> Direction
    ensures { (frame : List ℕ) → IsSender frame sender → result ≡ direction_of frame own }
{
    let Some(mac) = own else {
        return Direction::Inbound;
    };
    // Unlike `==` of slices this costs no call, and it compares all bytes at once.
    if sender == address_number(&mac.0) {
        Direction::Outbound
    } else {
        Direction::Inbound
    }
}

/// The way of a frame with at least twelve bytes.
#[inline]
pub fn direction(frame: &[u8], own: Option<Mac>) -> Direction
    requires { 12 ≤ length frame.now }
    ensures { result ≡ direction_of frame.now own }
{
    direction_from(sender_of(frame), own)
}
