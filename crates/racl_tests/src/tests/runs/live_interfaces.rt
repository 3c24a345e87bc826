//! Captures of several interfaces that are told while they come.
ghost use Rattle.std.specs.Prelude.{◌≡◌, ◌≤◌, IfErr, IfOk, None, Some, length};
ghost use Rattle.racl_io.specs.declared.fault.Fault.TheVariants.{Memory};

use super::DEFAULTS;
use super::slow_and_failing_devices::trickling;
use capture_stream::{Arrival, Arrivals, FaultAt};
use racl_io::decode_digits;
use racl_runs::{Fault, Lines, LiveAsked, run_live_interfaces};
use session_state::Shown;
use std::alloc::Global;
use std::test::Fail;

const POLICY: &[u8] = b"\
interface 1
mac 02:00:00:00:00:01
out permit+reflect ipv4 10.0.0.1 any udp dport 53
interface 2
in deny ipv4 10.0.0.2 any udp
";

/// A header of 24 bytes, and three records of 58: a request, its answer, and an answer that nobody asked for.
const CAPTURE: &[u8] = b"\
d4c3b2a102000400000000000000000000000400 01000000
64000000 00000000 2a000000 2a000000
020000000002 020000000001 0800
4500001c 00000000 40110000 0a000001 0a000002
03e8 0035 0008 0000
69000000 00000000 2a000000 2a000000
020000000001 020000000002 0800
4500001c 00000000 40110000 0a000002 0a000001
0035 03e8 0008 0000
6a000000 00000000 2a000000 2a000000
020000000001 020000000002 0800
4500001c 00000000 40110000 0a000003 0a000001
0035 03e8 0008 0000
";

/// The bytes of one capture, of which parts come at interfaces: each by its interface, and where it begins and ends.
#[derive(Drop)]
struct Parted<'a> {
    alloc: Global,
    bytes: &'a [u8],
    turns: &'a [(u8, usize, usize)],
}

// For tests of live runs: the bytes from one place to another, as far as they are there, and few of them.
fn part(bytes: &[u8], start: usize, end: usize) -> &[u8]
    ensures { length result.now ≤ 65536 }
{
    let end = end.min(bytes.len());
    let all = &bytes[start.min(end)..end];
    &all[..all.len().min(65536)]
}

// For tests of live runs: a part.
fn arrived(alloc: Global, bytes: &[u8], turn: &(u8, usize, usize)) -> Result<Arrival, FaultAt>
    ensures few { IfOk result (λ arrival. length arrival.bytes.items ≤ 65536) }
    ensures fault { IfErr result (λ found. (found.fault ≡ Memory) × (found.interface ≡ None)) }
{
    let (interface, start, end) = *turn;
    match Vec::from_slice(alloc, part(bytes, start, end)) {
        Ok(bytes) => Ok(Arrival { interface, bytes }),
        Err(_) => Err(FaultAt {
            fault: Fault::Memory,
            interface: None,
        }),
    }
}

impl Arrivals for Parted<'_> {
    ghost parts = { λ _. None };

    ghost whole = { λ _. tt };

    ghost left = { λ _. None };

    ghost failures = { λ _. 0 };

    ghost unread = { λ _. None };

    // For tests of live runs: the next part, or that none is left.
    fn next(&mut self) -> Result<Option<Arrival>, FaultAt> {
        let Some((turn, rest)) = self.turns.split_first() else {
            return Ok(None);
        };
        self.turns = rest;
        match arrived(self.alloc, self.bytes, turn) {
            Ok(arrival) => Ok(Some(arrival)),
            Err(found) => Err(found),
        }
    }
}

/// So, but when none is left the capture of this interface can't be read.
#[derive(Drop)]
struct Unreadable<'a> {
    alloc: Global,
    bytes: &'a [u8],
    turns: &'a [(u8, usize, usize)],
    interface: u8,
    failures: u64,
}

impl Arrivals for Unreadable<'_> {
    ghost parts = { λ _. None };

    ghost whole = { λ _. tt };

    ghost left = { λ _. None };

    ghost failures = { λ captures. captures.failures };

    ghost unread = { λ captures. Some captures.interface };

    // For tests of live runs: the next part, or that there is none.
    fn next(&mut self) -> Result<Option<Arrival>, FaultAt> {
        let Some((turn, rest)) = self.turns.split_first() else {
            self.failures += 1;
            return Err(FaultAt {
                fault: Fault::Read,
                interface: Some(self.interface),
            });
        };
        self.turns = rest;
        match arrived(self.alloc, self.bytes, turn) {
            Ok(arrival) => Ok(Some(arrival)),
            Err(found) => Err(found),
        }
    }
}

/// Two captures, the second one of which begins within the first, and ends within a record.
const TURNS: [(u8, usize, usize); 7] = [
    (1, 0, 24),
    (2, 0, 30),
    (1, 24, 90),
    (2, 30, 150),
    (2, 150, 150),
    (1, 90, 198),
    (1, 198, 198),
];

/// What is written of them in each form: of which packets, and what.
const FORMS: [(Lines, Shown, &str); 3] = [
    (
        Lines::Plain,
        Shown::Every,
        "\
1 if 1 pass rule 1 reflect
2 if 2 drop default
3 if 2 drop rule 1
4 if 1 pass session
5 if 1 drop default
if 2 truncated after 2
packets 5 pass 2 drop 3
",
    ),
    (
        Lines::Explained,
        Shown::Dropped,
        "\
2 if 2 drop default | interface 2 in time 100 udp 10.0.0.1 port 1000 to 10.0.0.2 port 53
3 if 2 drop rule 1 | interface 2 in time 105 udp 10.0.0.2 port 53 to 10.0.0.1 port 1000 | line 5 in deny ipv4 10.0.0.2 any udp
5 if 1 drop default | interface 1 in time 106 udp 10.0.0.3 port 53 to 10.0.0.1 port 1000
if 2 truncated after 2
packets 5 pass 2 drop 3
",
    ),
    (
        Lines::Json,
        Shown::Passing,
        "\
{\"packet\":1,\"verdict\":\"pass\",\"reason\":\"rule\",\"rule\":1,\"reflect\":true,\"line\":3,\"text\":\"out permit+reflect ipv4 10.0.0.1 any udp dport 53\",\"interface\":1,\"direction\":\"out\",\"time\":100,\"microsecond\":0,\"bytes\":42,\"protocol\":17,\"source\":\"10.0.0.1\",\"source_port\":1000,\"destination\":\"10.0.0.2\",\"destination_port\":53}
{\"packet\":4,\"verdict\":\"pass\",\"reason\":\"session\",\"interface\":1,\"direction\":\"in\",\"time\":105,\"microsecond\":0,\"bytes\":42,\"protocol\":17,\"source\":\"10.0.0.2\",\"source_port\":53,\"destination\":\"10.0.0.1\",\"destination_port\":1000}
{\"interface\":2,\"truncated_after\":2}
{\"packets\":5,\"pass\":2,\"drop\":3}
",
    ),
];

/// Live runs on two captures of which parts come in turn, by one worker and by four, in each form.
#[test]
fn packets_of_captures_that_come_together_name_their_interfaces(
    rt: HostRuntime,
) -> Result<(), Fail> {
    let alloc = rt.alloc();
    let bytes = decode_digits(alloc, CAPTURE)?;
    for (lines, shown, wanted) in FORMS {
        for workers in [1, 4] {
            let mut options = DEFAULTS;
            options.lines = lines;
            options.shown = shown;
            options.workers = workers;
            let asked = LiveAsked {
                options: &options,
                text: POLICY,
            };
            let mut parted = Parted {
                alloc,
                bytes: &bytes,
                turns: &TURNS,
            };
            let mut writer = trickling(alloc, usize::MAX);
            let outcome = run_live_interfaces(&rt, alloc, asked, &mut parted, &mut writer);
            assert!(rt; outcome.is_ok() == true, "{workers}");
            assert!(rt; writer.taken.as_slice() == wanted.as_bytes(), "{workers}");
        }
    }
    Ok(())
}

/// A capture without a header ends a live run behind the lines of the packets before, and is named.
#[test]
fn a_capture_with_a_fault_is_named(rt: HostRuntime) -> Result<(), Fail> {
    let alloc = rt.alloc();
    let bytes = decode_digits(alloc, CAPTURE)?;
    let asked = LiveAsked {
        options: &DEFAULTS,
        text: POLICY,
    };
    let mut parted = Parted {
        alloc,
        bytes: &bytes,
        turns: &[(1, 0, 82), (2, 0, 10), (2, 10, 10), (1, 82, 140)],
    };
    let mut writer = trickling(alloc, usize::MAX);
    let outcome = run_live_interfaces(&rt, alloc, asked, &mut parted, &mut writer);
    let fault = FaultAt {
        fault: Fault::Short,
        interface: Some(2),
    };
    assert!(rt; outcome == Err(fault));
    assert!(rt; writer.taken.as_slice() == b"1 if 1 pass rule 1 reflect\n".as_slice());
    Ok(())
}

/// A capture that can't be read ends a live run behind the lines of the packets before, and is named.
#[test]
fn a_capture_that_cannot_be_read_is_named(rt: HostRuntime) -> Result<(), Fail> {
    let alloc = rt.alloc();
    let bytes = decode_digits(alloc, CAPTURE)?;
    let asked = LiveAsked {
        options: &DEFAULTS,
        text: POLICY,
    };
    let mut unreadable = Unreadable {
        alloc,
        bytes: &bytes,
        turns: &[(1, 0, 82), (2, 0, 30)],
        interface: 2,
        failures: 0,
    };
    let mut writer = trickling(alloc, usize::MAX);
    let outcome = run_live_interfaces(&rt, alloc, asked, &mut unreadable, &mut writer);
    let fault = FaultAt {
        fault: Fault::Read,
        interface: Some(2),
    };
    assert!(rt; outcome == Err(fault));
    assert!(rt; writer.taken.as_slice() == b"1 if 1 pass rule 1 reflect\n".as_slice());
    assert!(rt; unreadable.failures == 1);
    Ok(())
}
