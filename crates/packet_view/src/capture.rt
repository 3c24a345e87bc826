//! Captures of the classic pcap format: a header, and records one after another.
ghost use Rattle.std.specs.Prelude.{◌≡◌, ◌≤◌, ◌⊎◌, ◌≢◌, length, List, Ok, Err, IsTrue, ◌↔◌, IfOk, IfErr, IfSome, IfNone, MatchResult, map};
ghost use Rattle.packet_view.specs.Captures.{
  End,
  HasFileHeader,
  HasMagic,
  HasRecord,
  IsCapture,
  IsCaptureAt,
  IsCaptureFault,
  IsHeaderFault,
  PacketFacts,
  RecordFacts,
  end_of,
  magic_of,
  micros_in,
  number_from,
  packet_facts,
};
ghost use Rattle.packet_view.specs.CheckedCaptures.{records_of};
ghost use Rattle.packet_view.specs.inner.RecordSteps.{Checks};
ghost use Rattle.packet_view.specs.declared.capture.CaptureFault.{CaptureFault};
ghost use Rattle.packet_view.specs.declared.capture.CaptureFault.TheVariants.{Memory};
ghost use Rattle.packet_view.specs.declared.capture.Order.{Order};

use crate::packet::Packet;
use crate::packets_of_records::Records;
use crate::records_at_front::{Front, Stop, front_records};
use byteorder::{BigEndian, ByteOrder, LittleEndian};
use std::alloc::{AllocError, AllocFailed, Global};

/// Which byte of a number in a capture comes first, its lowest or its highest; and what its records count within a second,
/// microseconds or, with `Nanos`, nanoseconds.
#[derive(Clone, Copy, Debug, PartialEq, Eq)]
pub enum Order {
    Little,
    LittleNanos,
    Big,
    BigNanos,
}

/// Why a capture isn't read, in the order of the checks.
#[derive(Clone, Copy, Debug, PartialEq, Eq)]
pub enum CaptureFault {
    /// Fewer bytes than the header has.
    Short,
    /// The bytes don't begin with the magic number in either order.
    Magic,
    /// Another major version than 2.
    Version,
    /// Another link type than Ethernet.
    LinkType,
    /// The record of this number, counted from 1, is too long.
    LongRecord(u64),
    /// A growth was refused.
    Memory,
}

impl From<AllocError> for CaptureFault {
    ghost use Rattle.packet_view.specs.declared.capture.CaptureFault.TheVariants.{Memory};
    ghost use Rattle.std.specs.Prelude.{◌≡◌};

    ghost from_gives = { λ _ fault. fault ≡ Memory };

    fn from(_refused: AllocError) -> CaptureFault {
        CaptureFault::Memory
    }
}

impl<T: Drop> From<AllocFailed<T>> for CaptureFault {
    ghost use Rattle.packet_view.specs.declared.capture.CaptureFault.TheVariants.{Memory};
    ghost use Rattle.std.specs.Prelude.{◌≡◌};

    ghost from_gives = { λ _ fault. fault ≡ Memory };

    fn from(_refused: AllocFailed<T>) -> CaptureFault {
        CaptureFault::Memory
    }
}

/// The packets of a capture, in its order, and whether it ends inside a record.
#[derive(Drop)]
pub struct Capture<'a> {
    pub packets: Vec<Packet<'a>>,
    pub truncated: bool,
}

/// The records of a capture where they stand, and whether it ends inside a record.
#[derive(Clone, Copy)]
pub struct CheckedCapture<'a> {
    pub records: Records<'a>,
    pub truncated: bool,
}

/// The number in two bytes of a capture, in its order.
#[inline]
fn u16_in(order: Order, bytes: &[u8]) -> u16
    requires { 2 ≤ length bytes.now }
    ensures { result ≡ number_from order 0 2 bytes.now }
{
    match order {
        Order::Little | Order::LittleNanos => LittleEndian::read_u16(bytes),
        Order::Big | Order::BigNanos => BigEndian::read_u16(bytes),
    }
}

/// The number in four bytes of a capture, in its order.
#[inline]
pub fn u32_in(order: Order, bytes: &[u8]) -> u32
    requires { 4 ≤ length bytes.now }
    ensures { result ≡ number_from order 0 4 bytes.now }
{
    match order {
        Order::Little | Order::LittleNanos => LittleEndian::read_u32(bytes),
        Order::Big | Order::BigNanos => BigEndian::read_u32(bytes),
    }
}

/// The microseconds within its second that the record's header at the front of these bytes says.
#[inline]
pub fn micros_in(order: Order, bytes: &[u8]) -> u32
    requires { 8 ≤ length bytes.now }
    ensures { result ≡ micros_in order bytes.now }
{
    let fraction = u32_in(order, &bytes[4..]);
    let thousandth = fraction / 1000;
    match order {
        Order::Little | Order::Big => fraction,
        Order::LittleNanos | Order::BigNanos => thousandth,
    }
}

// The number that a capture in this order begins with.
fn magic_of(order: Order) -> u32
    ensures { result ≡ magic_of order }
{
    match order {
        Order::Little | Order::Big => 0xa1b2c3d4,
        Order::LittleNanos | Order::BigNanos => 0xa1b23c4d,
    }
}

/// Whether a capture's bytes begin with the magic number of this order.
fn has_magic(order: Order, bytes: &[u8]) -> bool
    requires { 4 ≤ length bytes.now }
    ensures { IsTrue result ↔ HasMagic order bytes.now }
{
    u32_in(order, bytes) == magic_of(order)
}

/// The order whose magic number these bytes begin with, if they do.
fn magic_order(bytes: &[u8]) -> Option<Order>
    requires { 4 ≤ length bytes.now }
    ensures some { IfSome result (λ order. HasMagic order bytes.now) }
    ensures none { IfNone result ((order : Order) → HasMagic order bytes.now → ⊥) }
{
    if has_magic(Order::Little, bytes) {
        Some(Order::Little)
    } else if has_magic(Order::LittleNanos, bytes) {
        Some(Order::LittleNanos)
    } else if has_magic(Order::Big, bytes) {
        Some(Order::Big)
    } else if has_magic(Order::BigNanos, bytes) {
        Some(Order::BigNanos)
    } else {
        None
    }
}

/// The byte order, and what is counted within a second, of the capture whose header these bytes begin with.
pub fn capture_header(bytes: &[u8]) -> Result<Order, CaptureFault>
    ensures ok { IfOk result (λ order. HasFileHeader order bytes.now) }
    ensures fault { IfErr result (λ fault. IsHeaderFault bytes.now fault) }
    ensures accepts { (order : Order) → HasFileHeader order bytes.now → result ≡ Ok order }
    ensures refuses { (fault : CaptureFault) → IsHeaderFault bytes.now fault → result ≡ Err fault }
{
    if bytes.len() < 24 {
        return Err(CaptureFault::Short);
    }
    let Some(order) = magic_order(bytes) else {
        return Err(CaptureFault::Magic);
    };
    if u16_in(order, &bytes[4..]) != 2 {
        return Err(CaptureFault::Version);
    }
    if u32_in(order, &bytes[20..]) % 65536 != 1 {
        return Err(CaptureFault::LinkType);
    }
    Ok(order)
}

/// The records of a capture, behind its header.
fn check_records(
    bytes: &[u8],
    order: Order,
    interface: u8,
) -> Result<CheckedCapture<'_>, CaptureFault>
    ensures checks { Checks order bytes.now result }
    ensures at { IfOk result (λ checked. checked.records.interface ≡ interface) }
{
    let Front { records, stop, .. } = front_records(bytes, order, interface);
    let truncated = match stop {
        Stop::End => false,
        Stop::Truncated => true,
        Stop::TooLong => return Err(CaptureFault::LongRecord(records.count as u64 + 1)),
    };
    Ok(CheckedCapture { records, truncated })
}

/// The records of a capture that was taken at the interface with this number, each of which was looked at. No memory
/// is asked for.
pub fn check_capture(bytes: &[u8], interface: u8) -> Result<CheckedCapture<'_>, CaptureFault>
    ensures ok { IfOk result (λ checked. IsCapture bytes.now (records_of checked.records) (end_of checked.truncated)) }
    ensures at { IfOk result (λ checked. checked.records.interface ≡ interface) }
    ensures fault { IfErr result (IsCaptureFault bytes.now) }
    ensures accepts { (records : List RecordFacts) (end : End) → IsCapture bytes.now records end →
        MatchResult result (λ checked. (records_of checked.records ≡ records) × (end_of checked.truncated ≡ end)) (λ _. ⊥) }
    ensures refuses { (fault : CaptureFault) → IsCaptureFault bytes.now fault → result ≡ Err fault }
{
    let order = capture_header(bytes)?;
    check_records(&bytes[24..], order, interface)
}

/// The packets of a capture that was taken at the interface with this number. Memory is answered where a growth was
/// refused, and none is asked for before a whole record.
pub fn read_capture<'a>(
    alloc: Global,
    bytes: &'a [u8],
    interface: u8,
) -> Result<Capture<'a>, CaptureFault>
    ensures ok { IfOk result (λ capture. IsCaptureAt interface bytes.entry.now (map packet_facts capture.packets.items) (end_of capture.truncated)) }
    ensures fault { IfErr result (λ fault. fault ≢ Memory → IsCaptureFault bytes.entry.now fault) }
    ensures memory { IfErr result (λ fault. fault ≡ Memory → HasRecord bytes.entry.now) }
    ensures accepts { (packets : List PacketFacts) (end : End) → IsCaptureAt interface bytes.entry.now packets end →
        MatchResult result (λ capture. (map packet_facts capture.packets.items ≡ packets) × (end_of capture.truncated ≡ end)) (λ fault. fault ≡ Memory) }
    ensures refuses { (fault : CaptureFault) → IsCaptureFault bytes.entry.now fault →
        MatchResult result (λ capture. ⊥) (λ found. (found ≡ fault) ⊎ (found ≡ Memory)) }
{
    let CheckedCapture {
        mut records,
        truncated,
    } = check_capture(bytes, interface)?;
    let mut packets = Vec::new(alloc);
    'packets: while let Some(packet) = records.next() {
        packets.push(packet)?;
    }
    Ok(Capture { packets, truncated })
}
