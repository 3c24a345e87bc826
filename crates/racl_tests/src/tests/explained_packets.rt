//! What is told of packets: what they are, and which rule decided.
use acl_policy::read_policy;
use packet_view::{Packet, Packets};
use racl_io::{Captured, Device, Fault, Teller, totals_on};
use racl_views::{ExplainedLines, ObjectLines, TextOrJson};
use session_state::{Shown, Verdict};
use std::alloc::Global;
use std::test::Fail;

// The rules stand in the lines 2, 4 and 7.
const POLICY: &[u8] = b"mac 02:00:00:00:00:01\n\
    out permit+reflect ipv4 any any udp # questions\n\n\
    \tin deny ipv6 any any\n\
    interface 2\n\
    mac 02:00:00:00:00:02\n\
    in permit ipv4 any any icmp type 8 # \"a\\b\"\tc\r\n";

// A packet with its verdict, and what is told of it in each form: it is the only one of a truncated capture.
const ROWS: [(u8, &[u8], Verdict, &str, &str); 7] = [
    (
        0,
        b"\x02\0\0\0\0\x09\x02\0\0\0\0\x01\x08\0\
        \x45\0\0\x1c\0\0\0\0\x40\x11\0\0\xc0\0\x02\x01\xc6\x33\x64\x09\
        \x0f\xa0\0\x35\0\x08\0\0",
        Verdict::Reflect(1),
        "1 if 0 pass rule 1 reflect | interface 0 out time 10 udp 192.0.2.1 port 4000 to 198.51.100.9 port 53 \
        | line 2 out permit+reflect ipv4 any any udp # questions\n\
        if 0 truncated after 1\npackets 1 pass 1 drop 0\n",
        "{\"packet\":1,\"verdict\":\"pass\",\"reason\":\"rule\",\"rule\":1,\"reflect\":true,\"line\":2,\
        \"text\":\"out permit+reflect ipv4 any any udp # questions\",\
        \"interface\":0,\"direction\":\"out\",\"time\":10,\"microsecond\":250,\"bytes\":42,\"protocol\":17,\
        \"source\":\"192.0.2.1\",\"source_port\":4000,\
        \"destination\":\"198.51.100.9\",\"destination_port\":53}\n\
        {\"interface\":0,\"truncated_after\":1}\n\
        {\"packets\":1,\"pass\":1,\"drop\":0}\n",
    ),
    (
        0,
        b"\x02\0\0\0\0\x01\x02\0\0\0\0\x09\x86\xdd\
        \x60\0\0\0\0\x14\x06\x40\x20\x01\x0d\xb8\0\0\0\0\0\0\0\0\0\0\0\x01\
        \x20\x01\x0d\xb8\0\0\0\x01\0\0\0\0\0\0\0\xab\
        \x30\x39\0\x16\0\0\0\x01\0\0\0\0\x50\x02\0\0\0\0\0\0",
        Verdict::Deny(1),
        "1 if 0 drop rule 1 | interface 0 in time 10 tcp 2001:db8::1 port 12345 to 2001:db8:0:1::ab port 22 flags 02 \
        | line 4 in deny ipv6 any any\n\
        if 0 truncated after 1\npackets 1 pass 0 drop 1\n",
        "{\"packet\":1,\"verdict\":\"drop\",\"reason\":\"rule\",\"rule\":1,\"line\":4,\
        \"text\":\"in deny ipv6 any any\",\
        \"interface\":0,\"direction\":\"in\",\"time\":10,\"microsecond\":250,\"bytes\":74,\"protocol\":6,\
        \"source\":\"2001:db8::1\",\"source_port\":12345,\
        \"destination\":\"2001:db8:0:1::ab\",\"destination_port\":22,\"flags\":2}\n\
        {\"interface\":0,\"truncated_after\":1}\n\
        {\"packets\":1,\"pass\":0,\"drop\":1}\n",
    ),
    (
        2,
        b"\x02\0\0\0\0\x02\x02\0\0\0\0\x09\x08\0\
        \x45\0\0\x1c\0\0\0\0\x40\x01\0\0\x0a\0\0\x03\x0a\0\0\x02\
        \x08\0\0\0\0\x01\0\x01",
        Verdict::Permit(1),
        "1 if 2 pass rule 1 | interface 2 in time 10 icmp 10.0.0.3 to 10.0.0.2 type 8 code 0 \
        | line 7 in permit ipv4 any any icmp type 8 # \"a\\b\"\tc\n\
        if 2 truncated after 1\npackets 1 pass 1 drop 0\n",
        "{\"packet\":1,\"verdict\":\"pass\",\"reason\":\"rule\",\"rule\":1,\"line\":7,\
        \"text\":\"in permit ipv4 any any icmp type 8 # \\\"a\\\\b\\\"\\tc\",\
        \"interface\":2,\"direction\":\"in\",\"time\":10,\"microsecond\":250,\"bytes\":42,\"protocol\":1,\
        \"source\":\"10.0.0.3\",\"destination\":\"10.0.0.2\",\"type\":8,\"code\":0}\n\
        {\"interface\":2,\"truncated_after\":1}\n\
        {\"packets\":1,\"pass\":1,\"drop\":0}\n",
    ),
    // A rule that the policy hasn't, and a fragment behind the first.
    (
        0,
        b"\x02\0\0\0\0\x01\x02\0\0\0\0\x09\x08\0\
        \x45\0\0\x1c\0\0\0\x01\x40\x11\0\0\x0a\0\0\x03\x0a\0\0\x02\
        \0\0\0\0\0\0\0\0",
        Verdict::Permit(9),
        "1 if 0 pass rule 9 | interface 0 in time 10 udp 10.0.0.3 to 10.0.0.2 later fragment\n\
        if 0 truncated after 1\npackets 1 pass 1 drop 0\n",
        "{\"packet\":1,\"verdict\":\"pass\",\"reason\":\"rule\",\"rule\":9,\
        \"interface\":0,\"direction\":\"in\",\"time\":10,\"microsecond\":250,\"bytes\":42,\"protocol\":17,\
        \"source\":\"10.0.0.3\",\"destination\":\"10.0.0.2\",\"later_fragment\":true}\n\
        {\"interface\":0,\"truncated_after\":1}\n\
        {\"packets\":1,\"pass\":1,\"drop\":0}\n",
    ),
    // A protocol without a name.
    (
        0,
        b"\x02\0\0\0\0\x01\x02\0\0\0\0\x09\x86\xdd\
        \x60\0\0\0\0\0\x2f\x40\0\0\0\0\0\0\0\0\0\0\0\0\0\0\0\0\
        \0\0\0\0\0\0\0\0\0\0\xff\xff\xc0\0\x02\x80",
        Verdict::ByDefault,
        "1 if 0 drop default | interface 0 in time 10 protocol 47 :: to ::ffff:192.0.2.128\n\
        if 0 truncated after 1\npackets 1 pass 0 drop 1\n",
        "{\"packet\":1,\"verdict\":\"drop\",\"reason\":\"default\",\
        \"interface\":0,\"direction\":\"in\",\"time\":10,\"microsecond\":250,\"bytes\":54,\"protocol\":47,\
        \"source\":\"::\",\"destination\":\"::ffff:192.0.2.128\"}\n\
        {\"interface\":0,\"truncated_after\":1}\n\
        {\"packets\":1,\"pass\":0,\"drop\":1}\n",
    ),
    (
        0,
        b"\xff\xff\xff\xff\xff\xff\x02\0\0\0\0\x09\x08\x06",
        Verdict::NotIp,
        "1 if 0 pass not-ip | interface 0 time 10\n\
        if 0 truncated after 1\npackets 1 pass 1 drop 0\n",
        "{\"packet\":1,\"verdict\":\"pass\",\"reason\":\"not-ip\",\"interface\":0,\"time\":10,\"microsecond\":250,\"bytes\":14}\n\
        {\"interface\":0,\"truncated_after\":1}\n\
        {\"packets\":1,\"pass\":1,\"drop\":0}\n",
    ),
    (
        3,
        b"",
        Verdict::Malformed,
        "1 if 3 drop malformed | interface 3 time 10\n\
        if 3 truncated after 1\npackets 1 pass 0 drop 1\n",
        "{\"packet\":1,\"verdict\":\"drop\",\"reason\":\"malformed\",\"interface\":3,\"time\":10,\"microsecond\":250,\"bytes\":0}\n\
        {\"interface\":3,\"truncated_after\":1}\n\
        {\"packets\":1,\"pass\":0,\"drop\":1}\n",
    ),
];

// For tests of explained packets: what these lines tell of this packet as the only one of a truncated capture.
fn told_by<L: Teller + Drop>(
    alloc: Global,
    lines: L,
    packet: Packet<'_>,
    verdict: Verdict,
) -> Result<Vec<u8>, Fault> {
    let mut lines = lines;
    let mut report = Device::new(Vec::new(alloc));
    let captured = Captured {
        named: Some(packet.interface),
        packets: 1,
        truncated: true,
    };
    let passed = lines.tell(&mut report, 0, Packets::Slice(&[packet]), &[verdict])?;
    lines.tell_cut(&mut report, &captured)?;
    let totals = totals_on(passed, &[verdict], &[captured]);
    lines.tell_end(&mut report, &[], &totals)?;
    Ok(report.inner)
}

// For tests of explained packets: what is told, as text or as JSON, of this packet.
fn told(
    alloc: Global,
    view: TextOrJson,
    interface: u8,
    frame: &[u8],
    verdict: Verdict,
) -> Result<Vec<u8>, Fail> {
    let policy = read_policy(alloc, POLICY)?;
    let packet = Packet {
        interface,
        moment: 10,
        micros: 250,
        frame,
    };
    let every = Shown::Every;
    let text = match view {
        TextOrJson::Text => {
            let lines = ExplainedLines::new(alloc, every, true, &policy, POLICY)?;
            told_by(alloc, lines, packet, verdict)?
        }
        TextOrJson::Json => {
            let lines = ObjectLines::new(alloc, every, &policy, POLICY)?;
            told_by(alloc, lines, packet, verdict)?
        }
    };
    Ok(text)
}

/// One packet explained, as text and as JSON: what it is, and which rule decided.
#[test]
fn packets_and_the_rules_that_decided_them(rt: HostRuntime) -> Result<(), Fail> {
    for (interface, frame, verdict, explained, object) in ROWS {
        let text = told(rt.alloc(), TextOrJson::Text, interface, frame, verdict)?;
        assert!(rt; text.as_slice() == explained.as_bytes());
        let text = told(rt.alloc(), TextOrJson::Json, interface, frame, verdict)?;
        assert!(rt; text.as_slice() == object.as_bytes());
    }
    Ok(())
}
