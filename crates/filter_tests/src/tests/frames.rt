//! Frames byte by byte, with the views that the standards give them, of which `tests/rows/frames.txt` has more.
use packet_view::{Direction, Family, Fields, Frame, Mac, PlainPacket, Tuple, plain, view};

const OWN: Option<Mac> = Some(Mac([2, 0, 0, 0, 0, 1]));

/// 10.0.0.1:1000 to 10.0.0.2:53 over UDP, from 02:00:00:00:00:01 to 02:00:00:00:00:02.
pub const UDP: [u8; 42] = [
    0x02, 0, 0, 0, 0, 0x02, 0x02, 0, 0, 0, 0, 0x01, 0x08, 0x00, // Ethernet
    0x45, 0, 0, 0x1c, 0, 0, 0, 0, 0x40, 0x11, 0, 0, 10, 0, 0, 1, 10, 0, 0, 2, // IPv4
    0x03, 0xe8, 0x00, 0x35, 0x00, 0x08, 0, 0, // UDP
];

/// The view of `UDP` as an outgoing frame.
const UDP_TUPLE: Tuple = Tuple {
    interface: 0,
    family: Family::V4,
    source: 0x0a00_0001,
    dest: 0x0a00_0002,
    proto: 17,
    fields: Fields::Ports { from: 1000, to: 53 },
};

/// 10.0.0.1:1000 to 10.0.0.2:80 over TCP, with SYN alone.
const TCP: [u8; 54] = [
    0x02, 0, 0, 0, 0, 0x02, 0x02, 0, 0, 0, 0, 0x01, 0x08, 0x00, // Ethernet
    0x45, 0, 0, 0x28, 0, 0, 0, 0, 0x40, 0x06, 0, 0, 10, 0, 0, 1, 10, 0, 0, 2, // IPv4
    0x03, 0xe8, 0x00, 0x50, 0, 0, 0, 0, 0, 0, 0, 0, 0x50, 0x02, 0, 0, 0, 0, 0, 0, // TCP
];

/// The view of a frame by the interface's own address and number.
#[test]
fn sees_a_packet_by_its_way(rt: HostRuntime) {
    let other = Some(Mac([2, 0, 0, 0, 0, 2]));
    assert!(rt; view(&UDP, 0, OWN) == Frame::Ip(Direction::Outbound, UDP_TUPLE));
    assert!(rt; view(&UDP, 0, other) == Frame::Ip(Direction::Inbound, UDP_TUPLE));
    assert!(rt; view(&UDP, 0, None) == Frame::Ip(Direction::Inbound, UDP_TUPLE));
    let there = Tuple {
        interface: 255,
        family: Family::V4,
        source: 0x0a00_0001,
        dest: 0x0a00_0002,
        proto: 17,
        fields: Fields::Ports { from: 1000, to: 53 },
    };
    assert!(rt; view(&UDP, 255, OWN) == Frame::Ip(Direction::Outbound, there));
}

#[test]
fn reads_plain_frames(rt: HostRuntime) {
    let udp = PlainPacket {
        source: 0x0a00_0001,
        dest: 0x0a00_0002,
        from: 1000,
        to: 53,
        proto: 17,
        flags: 0,
    };
    let tcp = PlainPacket {
        source: 0x0a00_0001,
        dest: 0x0a00_0002,
        from: 1000,
        to: 80,
        proto: 6,
        flags: 0x02,
    };
    // 4 bytes of UDP and 14 of TCP are enough.
    for (frame, packet) in [
        (UDP.as_slice(), udp),
        (&UDP[..38], udp),
        (TCP.as_slice(), tcp),
        (&TCP[..48], tcp),
    ] {
        assert!(rt; plain(frame) == Some(packet));
    }
}
