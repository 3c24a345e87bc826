//! What is told of a run's rules and sessions. `tests/run` has what the program writes of them.
use acl_policy::{Policy, read_policy};
use packet_view::{Direction, Packets, read_capture};
use racl_views::{
    RuleLine, RuleName, Run, ShardOf, StoredPairs, TextOrJson, hits_text, live_sessions,
    numbered_rules, sessions_text, shard_text,
};
use session_state::{Shown, Timeouts, Verdict};
use std::alloc::{AllocError, Global};
use std::test::Fail;

// For tests of hits: a policy whose rules stand in the lines 2, 4 and 5.
fn hits_rules() -> &'static [u8] {
    b"mac 02:00:00:00:00:01\n\
    out permit+reflect ipv4 any any udp # questions\n\n\
    in deny ipv4 10.0.0.3 any\n\
    out deny ipv4 any any\n"
}

// For tests of hits: a capture of a request, from the own address, and of a packet of a stranger.
fn hits_capture() -> &'static [u8] {
    b"\xd4\xc3\xb2\xa1\x02\0\x04\0\0\0\0\0\0\0\0\0\0\0\x04\0\x01\0\0\0\
    \x64\0\0\0\0\0\0\0\x2a\0\0\0\x2a\0\0\0\
    \x02\0\0\0\0\x02\x02\0\0\0\0\x01\x08\0\
    \x45\0\0\x1c\0\0\0\0\x40\x11\0\0\x0a\0\0\x01\x0a\0\0\x02\
    \x03\xe8\0\x35\0\x08\0\0\
    \x69\0\0\0\0\0\0\0\x2a\0\0\0\x2a\0\0\0\
    \x02\0\0\0\0\x01\x02\0\0\0\0\x02\x08\0\
    \x45\0\0\x1c\0\0\0\0\x40\x11\0\0\x0a\0\0\x03\x0a\0\0\x01\
    \0\x35\x03\xe8\0\x08\0\0"
}

const VERDICTS: [Verdict; 2] = [Verdict::Reflect(1), Verdict::Deny(1)];

const TIMES: Timeouts = Timeouts {
    established: 3600,
    transient: 120,
    udp: 600,
};

// Sessions of UDP, of which one of second 100 is live at second 105 for the last time.
const SHORT_TIMES: Timeouts = Timeouts {
    established: 3600,
    transient: 120,
    udp: 5,
};

const SHORTER_TIMES: Timeouts = Timeouts {
    established: 3600,
    transient: 120,
    udp: 4,
};

// What is told of the rules and the packets.
const HITS: [(Timeouts, TextOrJson, &str); 3] = [
    (
        TIMES,
        TextOrJson::Text,
        "interface 0 out rule 1 line 2 packets 1 | out permit+reflect ipv4 any any udp # questions\n\
        interface 0 in rule 1 line 4 packets 1 | in deny ipv4 10.0.0.3 any\n\
        interface 0 out rule 2 line 5 packets 0 | out deny ipv4 any any\n\
        session packets 0\ndefault packets 0\nfull packets 0\nworn packets 0\nno-pages packets 0\n\
        not-ip packets 0\nmalformed packets 0\nshort packets 0\n\
        sessions entered 1\nsessions matched 0\nsessions expired 0\n",
    ),
    (
        SHORT_TIMES,
        TextOrJson::Json,
        "{\"interface\":0,\"direction\":\"out\",\"rule\":1,\"line\":2,\"text\":\"out permit+reflect ipv4 any any udp # questions\",\"packets\":1}\n\
        {\"interface\":0,\"direction\":\"in\",\"rule\":1,\"line\":4,\"text\":\"in deny ipv4 10.0.0.3 any\",\"packets\":1}\n\
        {\"interface\":0,\"direction\":\"out\",\"rule\":2,\"line\":5,\"text\":\"out deny ipv4 any any\",\"packets\":0}\n\
        {\"reason\":\"session\",\"packets\":0}\n{\"reason\":\"default\",\"packets\":0}\n\
        {\"reason\":\"full\",\"packets\":0}\n{\"reason\":\"worn\",\"packets\":0}\n\
        {\"reason\":\"no-pages\",\"packets\":0}\n{\"reason\":\"not-ip\",\"packets\":0}\n\
        {\"reason\":\"malformed\",\"packets\":0}\n{\"reason\":\"short\",\"packets\":0}\n\
        {\"sessions_entered\":1}\n{\"sessions_matched\":0}\n{\"sessions_expired\":0}\n",
    ),
    (
        SHORTER_TIMES,
        TextOrJson::Text,
        "interface 0 out rule 1 line 2 packets 1 | out permit+reflect ipv4 any any udp # questions\n\
        interface 0 in rule 1 line 4 packets 1 | in deny ipv4 10.0.0.3 any\n\
        interface 0 out rule 2 line 5 packets 0 | out deny ipv4 any any\n\
        session packets 0\ndefault packets 0\nfull packets 0\nworn packets 0\nno-pages packets 0\n\
        not-ip packets 0\nmalformed packets 0\nshort packets 0\n\
        sessions entered 1\nsessions matched 0\nsessions expired 1\n",
    ),
];

// For tests of hits: a rule of interface 0, and its line in the policy.
fn rule(direction: Direction, number: u64, line: u64) -> RuleLine {
    RuleLine {
        rule: RuleName {
            interface: 0,
            direction,
            number,
        },
        line,
    }
}

// For tests of hits and sessions: the stored sessions of these words.
fn stored_of(
    alloc: Global,
    four: &[([u64; 2], u64)],
    six: &[([u64; 5], u64)],
) -> Result<StoredPairs, AllocError> {
    Ok(StoredPairs {
        four: Vec::from_slice(alloc, four)?,
        six: Vec::from_slice(alloc, six)?,
    })
}

// For tests of hits: a run in which a first packet is reflected and a second one denied.
fn hits_run<'a>(policy: &'a Policy, packets: Packets<'a>) -> Run<'a> {
    Run {
        policy,
        text: hits_rules(),
        packets,
        verdicts: &VERDICTS,
        captures: &[],
        shown: Shown::Every,
    }
}

// For tests of hits: what is told of the capture's packets, after which the session of the request is stored.
fn hits_told(alloc: Global, times: Timeouts, view: TextOrJson) -> Result<Vec<u8>, Fail> {
    let policy = read_policy(alloc, hits_rules())?;
    let capture = read_capture(alloc, hits_capture(), 0)?;
    let run = hits_run(&policy, Packets::Slice(&capture.packets));
    let request = [([0x0a00_0001_0a00_0002, 0x03e8_0035_1100_0000], 100)];
    let stored = stored_of(alloc, &request, &[])?;
    Ok(hits_text(alloc, view, times, run, &stored)?)
}

/// Hits of rules and of reasons, and counts of sessions, as text and as JSON.
#[test]
fn rules_and_what_they_decided(rt: HostRuntime) -> Result<(), Fail> {
    let wanted = [
        rule(Direction::Outbound, 1, 2),
        rule(Direction::Inbound, 1, 4),
        rule(Direction::Outbound, 2, 5),
    ];
    assert!(rt; numbered_rules(rt.alloc(), hits_rules())?.as_slice() == wanted.as_slice());
    for (times, view, told) in HITS {
        let text = hits_told(rt.alloc(), times, view)?;
        assert!(rt; text.as_slice() == told.as_bytes());
    }
    Ok(())
}

// Sessions of UDP, TCP and echo, and a word that is no session's.
const FOUR: [([u64; 2], u64); 4] = [
    ([0x0a00_0001_0a00_0002, 0x03e8_0035_1100_0000], 100),
    (
        [0x0a00_0001_0a00_0002, 0x9c40_0050_0600_0000],
        0x0001_1212_6553_f100,
    ),
    ([0x0a00_0001_0a00_0002, 0x9c41_0050_0600_0000], 1 << 50),
    ([0x0a00_0003_0a00_0001, 0x0000_0000_0100_0002], 50),
];

const SIX: [([u64; 5], u64); 2] = [
    (
        [0, 1, 0x2001_0db8_0000_0000, 1, 0x14e9_0035_1100_00ff],
        0xffff_ffff,
    ),
    (
        [0, 1, 0x2001_0db8_0000_0000, 1, 0xffff_0016_0600_0000],
        0x0001_0002_0000_0007,
    ),
];

const LINES: &str =
    "session interface 0 udp 10.0.0.1 port 1000 and 10.0.0.2 port 53 last 100 until 700\n\
    session interface 0 tcp 10.0.0.1 port 40000 flags 12 and 10.0.0.2 port 80 flags 12 last 1700000000 until 1700003600\n\
    session interface 2 icmp 10.0.0.3 and 10.0.0.1 last 50 until 650\n\
    session interface 255 udp ::1 port 5353 and 2001:db8::1 port 53 last 4294967295 until 4294967895\n\
    session interface 0 tcp ::1 port 65535 flags 02 and 2001:db8::1 port 22 flags 00 last 7 until 127\n";

const OBJECTS: &str =
    "{\"interface\":0,\"protocol\":17,\"ends\":[{\"address\":\"10.0.0.1\",\"port\":1000},\
    {\"address\":\"10.0.0.2\",\"port\":53}],\"last\":100,\"until\":700}\n\
    {\"interface\":0,\"protocol\":6,\"ends\":[{\"address\":\"10.0.0.1\",\"port\":40000,\"flags\":18},\
    {\"address\":\"10.0.0.2\",\"port\":80,\"flags\":18}],\"last\":1700000000,\"until\":1700003600}\n\
    {\"interface\":2,\"protocol\":1,\"ends\":[{\"address\":\"10.0.0.3\"},{\"address\":\"10.0.0.1\"}],\
    \"last\":50,\"until\":650}\n\
    {\"interface\":255,\"protocol\":17,\"ends\":[{\"address\":\"::1\",\"port\":5353},\
    {\"address\":\"2001:db8::1\",\"port\":53}],\"last\":4294967295,\"until\":4294967895}\n\
    {\"interface\":0,\"protocol\":6,\"ends\":[{\"address\":\"::1\",\"port\":65535,\"flags\":2},\
    {\"address\":\"2001:db8::1\",\"port\":22,\"flags\":0}],\"last\":7,\"until\":127}\n";

// Those that are live at the second 651, the first behind that of echo's.
const LIVE: &str =
    "session interface 0 udp 10.0.0.1 port 1000 and 10.0.0.2 port 53 last 100 until 700\n\
    session interface 0 tcp 10.0.0.1 port 40000 flags 12 and 10.0.0.2 port 80 flags 12 last 1700000000 until 1700003600\n\
    session interface 255 udp ::1 port 5353 and 2001:db8::1 port 53 last 4294967295 until 4294967895\n";

/// Of stored sessions those that are live at a second, up to the last in which they are.
#[test]
fn sessions_that_are_live(rt: HostRuntime) -> Result<(), Fail> {
    let stored = stored_of(rt.alloc(), &FOUR, &SIX)?;
    let live = live_sessions(rt.alloc(), &TIMES, 651, &stored)?;
    let text = sessions_text(rt.alloc(), TextOrJson::Text, TIMES, &live)?;
    assert!(rt; text.as_slice() == LIVE.as_bytes());
    let live = live_sessions(rt.alloc(), &TIMES, 650, &stored)?;
    assert!(rt; live.four.len() == 3);
    assert!(rt; live.six.len() == 1);
    Ok(())
}

const SHARD: ShardOf = ShardOf {
    number: 2,
    count: 8,
    packets: 806,
    latest: 1700,
};

/// Which shard a report is of is told as text and as JSON.
#[test]
fn which_shard_a_report_is_of(rt: HostRuntime) -> Result<(), Fail> {
    let object = "{\"shard\":2,\"shards\":8,\"capture_packets\":806,\"capture_until\":1700}\n";
    let line = "shard 2 of 8 of 806 packets until 1700\n";
    for (view, told) in [(TextOrJson::Text, line), (TextOrJson::Json, object)] {
        let text = shard_text(rt.alloc(), view, SHARD)?;
        assert!(rt; text.as_slice() == told.as_bytes());
    }
    Ok(())
}

/// Sessions are told as text and as JSON, like the hits of rules.
#[test]
fn sessions_that_are_stored(rt: HostRuntime) -> Result<(), Fail> {
    let stored = stored_of(rt.alloc(), &FOUR, &SIX)?;
    for (view, told) in [(TextOrJson::Text, LINES), (TextOrJson::Json, OBJECTS)] {
        let text = sessions_text(rt.alloc(), view, TIMES, &stored)?;
        assert!(rt; text.as_slice() == told.as_bytes());
    }
    Ok(())
}
