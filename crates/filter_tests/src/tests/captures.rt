//! Captures byte by byte, with the packets that the format gives them, of which `tests/rows/captures.txt` has more.
use super::filter_test_refused;
use super::frames::UDP;
use packet_view::{
    NextRecord, Order, Packet, Packets, Stop, front_records, next_record, read_capture,
};
use std::test::Fail;

/// A header and three records of 42 bytes, little-endian, with microseconds.
const LITTLE: [u8; 198] = [
    0xd4, 0xc3, 0xb2, 0xa1, 0x02, 0, 0x04, 0, 0, 0, 0, 0, 0, 0, 0, 0, 0, 0, 0x04, 0, 0x01, 0, 0, 0, // header
    0x64, 0, 0, 0, 0x41, 0x42, 0x0f, 0, 0x2a, 0, 0, 0, 0x2a, 0, 0, 0, // 100 seconds, 1,000,001 microseconds
    0x02, 0, 0, 0, 0, 0x02, 0x02, 0, 0, 0, 0, 0x01, 0x08, 0, //
    0x45, 0, 0, 0x1c, 0, 0, 0, 0, 0x40, 0x11, 0, 0, 0x0a, 0, 0, 0x01, 0x0a, 0, 0, 0x02, //
    0x03, 0xe8, 0, 0x35, 0, 0x08, 0, 0, //
    0x69, 0, 0, 0, 0, 0, 0, 0, 0x2a, 0, 0, 0, 0x2a, 0, 0, 0, // 105 seconds
    0x02, 0, 0, 0, 0, 0x01, 0x02, 0, 0, 0, 0, 0x02, 0x08, 0, //
    0x45, 0, 0, 0x1c, 0, 0, 0, 0, 0x40, 0x11, 0, 0, 0x0a, 0, 0, 0x02, 0x0a, 0, 0, 0x01, //
    0, 0x35, 0x03, 0xe8, 0, 0x08, 0, 0, //
    0x6a, 0, 0, 0, 0, 0, 0, 0, 0x2a, 0, 0, 0, 0x2a, 0, 0, 0, // 106 seconds
    0x02, 0, 0, 0, 0, 0x01, 0x02, 0, 0, 0, 0, 0x02, 0x08, 0, //
    0x45, 0, 0, 0x1c, 0, 0, 0, 0, 0x40, 0x11, 0, 0, 0x0a, 0, 0, 0x03, 0x0a, 0, 0, 0x01, //
    0, 0x35, 0x03, 0xe8, 0, 0x08, 0, 0, //
];

/// A header and the first of those records, big-endian, with nanoseconds.
const BIG: [u8; 82] = [
    0xa1, 0xb2, 0x3c, 0x4d, 0, 0x02, 0, 0x04, 0, 0, 0, 0, 0, 0, 0, 0, 0, 0x04, 0, 0, 0, 0, 0, 0x01, // header
    0, 0, 0, 0x64, 0x3b, 0x9a, 0xc9, 0xff, 0, 0, 0, 0x2a, 0, 0, 0, 0x2a, // 100 seconds, 999,999,999 nanoseconds
    0x02, 0, 0, 0, 0, 0x02, 0x02, 0, 0, 0, 0, 0x01, 0x08, 0, //
    0x45, 0, 0, 0x1c, 0, 0, 0, 0, 0x40, 0x11, 0, 0, 0x0a, 0, 0, 0x01, 0x0a, 0, 0, 0x02, //
    0x03, 0xe8, 0, 0x35, 0, 0x08, 0, 0, //
];

/// The first record behind a capture's header, and the bytes after it.
#[test]
fn finds_the_next_record(rt: HostRuntime) {
    let NextRecord::Whole {
        moment,
        micros,
        frame,
        rest,
    } = next_record(&LITTLE[24..], Order::Little)
    else {
        assert!(rt; false, "a whole record");
        return;
    };
    assert!(rt; (moment, micros, rest.len()) == (100, 1_000_001, 116));
    assert!(rt; frame == UDP.as_slice());
}

/// A capture that is cut: two of its records are whole, and the third begins at 140.
#[test]
fn finds_the_whole_records_at_the_front(rt: HostRuntime) {
    let front = front_records(&LITTLE[24..145], Order::Little, 0);
    assert!(rt; (front.records.count(), front.rest.len()) == (2, 5));
    assert!(rt; front.stop == Stop::Truncated);
    assert!(rt; front_of(Packets::Records(front.records)) == (2, Some((100, 1_000_001)), 1));
}

/// A whole capture in big-endian order: the list of its packets.
#[test]
fn reads_the_packets_of_a_capture(rt: HostRuntime) -> Result<(), Fail> {
    let Ok(capture) = read_capture(rt.alloc(), &BIG, 0) else {
        return filter_test_refused();
    };
    assert!(rt; !capture.truncated);
    assert!(rt; front_of_list(&capture.packets) == (1, Some((100, 999_999)), 0));
    Ok(())
}

// What tests of captures compare of packets: how many there are, the moment of the first, with its microseconds, and how
// many are left.
fn front_of(mut packets: Packets<'_>) -> (usize, Option<(u32, u32)>, usize) {
    let count = packets.count();
    let moment = packets.next().map(|packet| (packet.moment, packet.micros));
    (count, moment, packets.count())
}

// What tests of captures compare of a list of packets.
fn front_of_list<'a>(packets: &'a [Packet<'a>]) -> (usize, Option<(u32, u32)>, usize) {
    front_of(Packets::Slice(packets))
}
