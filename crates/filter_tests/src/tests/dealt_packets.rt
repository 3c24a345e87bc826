//! Packets whose workers were worked out by hand.
use bihash_words::{ShapeV4, ShapeV6, flow_shapes_are_sound};
use flow_dealing::{Dealer, Dealing, see_other, see_plain, worker_of_packet};
use packet_view::Packet;

// Who has 10.0.0.2?
const ARP: [u8; 42] = [
    255, 255, 255, 255, 255, 255, 2, 0, 0, 0, 0, 1, 8, 6, 0, 1, 8, 0, 6, 4, 0, 1, 2, 0, 0, 0, 0, 1,
    10, 0, 0, 1, 0, 0, 0, 0, 0, 0, 10, 0, 0, 2,
];

// By UDP from fd00::1, port 1005, to fd00::2, port 53.
const SIX: [u8; 62] = [
    2, 0, 0, 0, 0, 2, 2, 0, 0, 0, 0, 1, 0x86, 0xdd, 0x60, 0, 0, 0, 0, 8, 17, 64, 0xfd, 0, 0, 0, 0,
    0, 0, 0, 0, 0, 0, 0, 0, 0, 0, 1, 0xfd, 0, 0, 0, 0, 0, 0, 0, 0, 0, 0, 0, 0, 0, 0, 2, 0x03, 0xed,
    0, 53, 0, 8, 0, 0,
];

// The frame of a packet that a test deals: from 10.0.0.m to 10.0.0.n, by UDP (17) or TCP (6).
fn four(proto: u8, from: u8, to: u8, ports: [u8; 4]) -> [u8; 54] {
    let [a, b, c, d] = ports;
    [
        2, 0, 0, 0, 0, to, 2, 0, 0, 0, 0, from, 8, 0, 0x45, 0, 0, 40, 0, 0, 0, 0, 64, proto, 0, 0,
        10, 0, 0, from, 10, 0, 0, to, a, b, c, d, 0, 20, 0, 0, 0, 0, 0, 0, 0x50, 2, 0, 0, 0, 0, 0,
        0,
    ]
}

// A packet of interface 0 that a test deals to workers.
fn packet_to_deal<'a>(moment: u32, frame: &'a [u8]) -> Packet<'a> {
    Packet {
        interface: 0,
        moment,
        micros: 0,
        frame,
    }
}

// The worker to whom one packet is dealt, by the flow that its frame shows: one of IPv4, none, and one of IPv6.
#[test]
fn one_packet_has_its_worker(rt: HostRuntime) {
    flow_shapes_are_sound();
    let dealer = Dealer {
        dealing: Dealing::Bucket,
        workers: 3,
    };
    let request = four(17, 1, 2, [0x03, 0xe8, 0, 53]);
    let (first, second, third) = (
        packet_to_deal(100, &request),
        packet_to_deal(100, &ARP),
        packet_to_deal(100, &SIX),
    );
    let plain = see_plain::<ShapeV4, ShapeV6>(&first).expect(&rt, "a plain frame");
    assert!(rt; see_plain::<ShapeV4, ShapeV6>(&second).is_none());
    assert!(rt; see_plain::<ShapeV4, ShapeV6>(&third).is_none());
    for (hashed, worker) in [
        (plain.hashed_flow(), 1),
        (see_other::<ShapeV4, ShapeV6>(first).hashed, 1),
        (see_other::<ShapeV4, ShapeV6>(second).hashed, 0),
        (see_other::<ShapeV4, ShapeV6>(third).hashed, 2),
    ] {
        assert!(rt; worker_of_packet::<ShapeV4, ShapeV6>(&dealer, 9, &hashed) == worker);
    }
}
