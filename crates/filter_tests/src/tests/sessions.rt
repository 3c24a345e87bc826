//! Keys, session words and decisions whose values were worked out by hand; `tests/rows/sessions.txt` has what packets
//! show of sessions.
//!
//! In comments `.n` stands for the address 10.0.0.n.
ghost use Rattle.std.specs.Prelude.{◌<◌};

use super::TIMES;
use bihash_words::{Change, Patch};
use packet_view::{Family, Fields, PlainPacket, Tuple};
use session_state::{Flow, FlowKey, PacketPatch, Session, orient, plain_flow};

const NET: u32 = 0x0a00_0000;

const FIN: u8 = 1;

const SYN: u8 = 2;

const PUSH: u8 = 8;

const ACK: u8 = 16;

// A packet between these ends by UDP, for tests of flow keys and sessions.
fn session_udp(source: u32, from: u16, dest: u32, to: u16) -> Tuple {
    Tuple {
        interface: 0,
        family: Family::V4,
        source: u128::from(source),
        dest: u128::from(dest),
        proto: 17,
        fields: Fields::Ports { from, to },
    }
}

// A packet between these ends by TCP, for tests of flow keys and sessions.
fn session_tcp(source: u32, from: u16, dest: u32, to: u16, flags: u8) -> Tuple {
    Tuple {
        interface: 0,
        family: Family::V4,
        source: u128::from(source),
        dest: u128::from(dest),
        proto: 6,
        fields: Fields::Tcp { from, to, flags },
    }
}

// The flow of IPv4 that a test of sessions expects, by the words of its key.
fn four(first: u64, last: u64, side: u8, starts: bool) -> Option<Flow> {
    Some(Flow {
        key: FlowKey::Four([first, last]),
        side,
        starts,
    })
}

// A TCP packet whose decision on its session is tested.
fn of_tcp(moment: u32, side: u8, flags: u8, reflects: bool) -> PacketPatch
    requires { side < 2 }
{
    PacketPatch {
        moment,
        side,
        flags,
        tcp: true,
        reflects,
        times: TIMES,
    }
}

// The flow of IPv6 that a test of sessions expects, by its ends in one network and the last word of its key.
fn six(first: u64, last: u64, ports: u64, starts: bool) -> Option<Flow> {
    // the network 2001:db8::
    let net = 0x2001_0db8_0000_0000;
    Some(Flow {
        key: FlowKey::Six([net, first, net, last, ports]),
        side: 1,
        starts,
    })
}

/// Keys of sessions over IPv4: of a request by UDP, of its answer, and of a packet of TCP.
#[test]
fn keys_of_udp_and_tcp(rt: HostRuntime) {
    let key = 0x0a00_0001_0a00_0002;
    let asked = orient(&session_udp(NET + 1, 1000, NET + 2, 53));
    assert!(rt; asked == four(key, 0x03e8_0035_1100_0000, 0, true));
    let answered = orient(&session_udp(NET + 2, 53, NET + 1, 1000));
    assert!(rt; answered == four(key, 0x03e8_0035_1100_0000, 1, true));
    let sent = orient(&session_tcp(NET + 2, 80, NET + 1, 1000, SYN));
    assert!(rt; sent == four(key, 0x03e8_0050_0600_0000, 1, true));
}

/// Keys of sessions, and the senders' sides, of plain packets by UDP and TCP.
#[test]
fn keys_of_plain_packets(rt: HostRuntime) {
    let key = 0x0a00_0001_0a00_0002;
    let asked = plain_flow(
        PlainPacket {
            source: NET + 1,
            dest: NET + 2,
            from: 1000,
            to: 53,
            proto: 17,
            flags: 0,
        },
        255,
    );
    assert!(rt; Some(asked.flow()) == four(key, 0x03e8_0035_1100_00ff, 0, true));
    let sent = plain_flow(
        PlainPacket {
            source: NET + 2,
            dest: NET + 1,
            from: 80,
            to: 1000,
            proto: 6,
            flags: 0x18,
        },
        0,
    );
    assert!(rt; Some(sent.flow()) == four(key, 0x03e8_0050_0600_0000, 1, true));
}

/// Keys of sessions over IPv6: of a packet of UDP, and of an echo reply.
#[test]
fn keys_of_ipv6(rt: HostRuntime) {
    // 2001:db8::1 and 2001:db8::2
    let lesser = 0x2001_0db8_0000_0000_0000_0000_0000_0001u128;
    let greater = 0x2001_0db8_0000_0000_0000_0000_0000_0002u128;
    let asked = orient(&Tuple {
        interface: 0,
        family: Family::V6,
        source: greater,
        dest: lesser,
        proto: 17,
        fields: Fields::Ports { from: 1000, to: 53 },
    });
    assert!(rt; asked == six(1, 2, 0x0035_03e8_1100_0000, true));
    let reply = orient(&Tuple {
        interface: 0,
        family: Family::V6,
        source: lesser,
        dest: greater,
        proto: 58,
        fields: Fields::Icmp { kind: 129, code: 0 },
    });
    assert!(rt; reply == six(2, 1, 0x0000_0000_3a00_0000, false));
}

/// `.1:1000` opens a connection to `.2:80`: SYN, SYN and ACK, ACK. 87401 is the last second of the established timeout.
/// FIN ends the established state, and after 120 seconds the session.
#[test]
fn tcp_session(rt: HostRuntime) {
    let open = 0x0001_1212_0000_03e9;
    for (moment, is_answer, flags, found, change) in [
        (
            1001,
            true,
            SYN | ACK,
            0x0001_0002_0000_03e8,
            Change::Set(0x0001_1202_0000_03e9),
        ),
        (1001, false, ACK, 0x0001_1202_0000_03e9, Change::Set(open)),
        (87401, true, ACK, open, Change::Set(0x0001_1212_0001_5569)),
        (87402, true, ACK, open, Change::Remove),
        (
            11802,
            false,
            FIN | ACK,
            0x0001_1212_0000_2e19,
            Change::Set(0x0001_1213_0000_2e1a),
        ),
        (12002, true, ACK, 0x0001_1213_0000_2e1a, Change::Remove),
    ] {
        let side = if is_answer { 1 } else { 0 };
        let packet = of_tcp(moment, side, flags, false);
        assert!(rt; packet.decide(Some(found)) == change, "at {moment}");
    }
    let first = of_tcp(1000, 0, SYN, true).decide(None);
    assert!(rt; first == Change::Set(0x0001_0002_0000_03e8));
}

/// The word of a session that is half open, the flags seen of its sides, and its last second.
#[test]
fn half_open_session_word(rt: HostRuntime) {
    let session = Session::new(1000, 1, SYN | PUSH, true);
    assert!(rt; session.word() == 0x0001_0200_0000_03e8);
    assert!(rt; Session::from_word(0x0001_0200_0000_03e8) == Some(session));
    let touched = session.touched(900, 0, FIN | ACK | 0x20);
    assert!(rt; (touched.word(), touched.last()) == (0x0001_0211_0000_03e8, 1000));
    assert!(rt; (touched.flags_seen(0), touched.flags_seen(1)) == (0x11, 0x02));
    // half open
    let ends = (session.live_at(1120, &TIMES), session.live_at(1121, &TIMES));
    assert!(rt; (session.timeout(&TIMES), ends) == (120, (true, false)));
}
