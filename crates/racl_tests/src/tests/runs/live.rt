//! A capture that is told while it comes.
ghost use Rattle.std.specs.Prelude.{◌-◌, ◌<◌, ◌^◌};

use super::DEFAULTS;
use super::slow_and_failing_devices::{Drip, Trickle, trickling};
use racl_io::decode_digits;
use racl_runs::{Fault, Lines, LiveAsked, LiveSaves, Options, Saves, Totals, run_live};
use session_state::Shown;
use std::alloc::Global;
use std::sync::Wait;
use std::test::Fail;
use std::thread::Threads;
use std::time::Clock;

const POLICY: &[u8] = b"\
mac 02:00:00:00:00:01
out permit+reflect ipv4 10.0.0.1 any udp dport 53
";

/// A header of 24 bytes, and three records of 58: a request, its answer, and an answer that nobody asked for.
const CAPTURE: &[u8] = b"\
d4c3b2a102000400000000000000000000000400 01000000
64000000 00000000 2a000000 2a000000
020000000002 020000000001 0800
4500001c 00000000 40110000 0a000001 0a000002
03e8 0035 0008 0000
69000000 00000000 2a000000 2a000000
020000000001 020000000002 0800
4500001c 00000000 40110000 0a000002 0a000001
0035 03e8 0008 0000
6a000000 00000000 2a000000 2a000000
020000000001 020000000002 0800
4500001c 00000000 40110000 0a000003 0a000001
0035 03e8 0008 0000
";

/// How many bytes came before a read failed, what was written then, and what is written where the capture ends there.
const CUTS: [(usize, &str, &str); 6] = [
    (24, "", "packets 0 pass 0 drop 0\n"),
    (81, "", "truncated after 0\npackets 0 pass 0 drop 0\n"),
    (82, "1 pass rule 1 reflect\n", "packets 1 pass 1 drop 0\n"),
    (
        139,
        "1 pass rule 1 reflect\n",
        "truncated after 1\npackets 1 pass 1 drop 0\n",
    ),
    (
        140,
        "1 pass rule 1 reflect\n2 pass session\n",
        "packets 2 pass 2 drop 0\n",
    ),
    (
        198,
        "1 pass rule 1 reflect\n2 pass session\n3 drop default\n",
        "packets 3 pass 2 drop 1\n",
    ),
];

// For tests of live runs: what comes of one on the capture that this reader gives, which saves no packets.
fn unsaved<T: Clock + Threads + Wait + Sync>(
    rt: &T,
    alloc: Global,
    options: &Options,
    reader: &mut Drip<'_>,
    writer: &mut Trickle,
) -> Result<Totals, Fault>
    requires reader { reader.old.failures < 2 ^ 64 - 1 }
    requires writer { writer.old.failures < 2 ^ 64 - 1 }
{
    let asked = LiveAsked {
        options,
        text: POLICY,
    };
    let files: Saves<Trickle> = Saves {
        drops: None,
        passes: None,
    };
    let mut saves = LiveSaves { files };
    run_live(rt, alloc, asked, reader, writer, &mut saves)
}

// For tests of live runs: these options where words ask for four workers.
fn by_four(mut options: Options) -> Options {
    options.workers = 4;
    options
}

/// Live runs by one worker and by four on a capture of which a read fails, or which ends, within a record or behind one.
#[test]
fn lines_are_written_as_soon_as_their_records_are_there(rt: HostRuntime) -> Result<(), Fail> {
    let alloc = rt.alloc();
    let bytes = decode_digits(alloc, CAPTURE)?;
    for options in [DEFAULTS, by_four(DEFAULTS)] {
        let workers = options.workers;
        for (count, lines, end) in CUTS {
            let rest = &bytes[..count.min(bytes.len())];
            let mut reader = Drip {
                rest,
                reads: count,
                failures: 0,
            };
            let mut writer = trickling(alloc, usize::MAX);
            let outcome = unsaved(&rt, alloc, &options, &mut reader, &mut writer);
            assert!(rt;
                outcome == Err(Fault::Read),
                "{workers} after {count} bytes"
            );
            assert!(rt;
                writer.taken.as_slice() == lines.as_bytes(),
                "{workers} after {count} bytes"
            );
            let mut reader = Drip {
                rest,
                reads: usize::MAX,
                failures: 0,
            };
            let mut writer = trickling(alloc, usize::MAX);
            let outcome = unsaved(&rt, alloc, &options, &mut reader, &mut writer);
            assert!(rt; outcome.is_ok() == true, "{workers} of {count} bytes");
            let (told, behind) = writer.taken.split_at(lines.len().min(writer.taken.len()));
            assert!(rt; told == lines.as_bytes(), "{workers} of {count} bytes");
            assert!(rt; behind == end.as_bytes(), "{workers} of {count} bytes");
        }
    }
    Ok(())
}

/// What a live run writes in each form: of which packets, and what.
const FORMS: [(Lines, Shown, &str); 4] = [
    (
        Lines::Plain,
        Shown::Dropped,
        "3 drop default\npackets 3 pass 2 drop 1\n",
    ),
    (
        Lines::Explained,
        Shown::Every,
        "\
1 pass rule 1 reflect | interface 0 out time 100 udp 10.0.0.1 port 1000 to 10.0.0.2 port 53 | line 2 out permit+reflect ipv4 10.0.0.1 any udp dport 53
2 pass session | interface 0 in time 105 udp 10.0.0.2 port 53 to 10.0.0.1 port 1000
3 drop default | interface 0 in time 106 udp 10.0.0.3 port 53 to 10.0.0.1 port 1000
packets 3 pass 2 drop 1
",
    ),
    (
        Lines::Json,
        Shown::Passing,
        "\
{\"packet\":1,\"verdict\":\"pass\",\"reason\":\"rule\",\"rule\":1,\"reflect\":true,\"line\":2,\"text\":\"out permit+reflect ipv4 10.0.0.1 any udp dport 53\",\"interface\":0,\"direction\":\"out\",\"time\":100,\"microsecond\":0,\"bytes\":42,\"protocol\":17,\"source\":\"10.0.0.1\",\"source_port\":1000,\"destination\":\"10.0.0.2\",\"destination_port\":53}
{\"packet\":2,\"verdict\":\"pass\",\"reason\":\"session\",\"interface\":0,\"direction\":\"in\",\"time\":105,\"microsecond\":0,\"bytes\":42,\"protocol\":17,\"source\":\"10.0.0.2\",\"source_port\":53,\"destination\":\"10.0.0.1\",\"destination_port\":1000}
{\"packets\":3,\"pass\":2,\"drop\":1}
",
    ),
    (
        Lines::Json,
        Shown::Nothing,
        "{\"packets\":3,\"pass\":2,\"drop\":1}\n",
    ),
];

// For tests of live runs: the options where words ask for a form of lines, and for some packets.
fn asked_form(lines: Lines, shown: Shown) -> Options {
    let mut options = DEFAULTS;
    options.lines = lines;
    options.shown = shown;
    options
}

/// Live runs on a capture, which is told in each form.
#[test]
fn live_runs_tell_in_each_form(rt: HostRuntime) -> Result<(), Fail> {
    let alloc = rt.alloc();
    let bytes = decode_digits(alloc, CAPTURE)?;
    for (lines, shown, wanted) in FORMS {
        let mut reader = Drip {
            rest: &bytes,
            reads: usize::MAX,
            failures: 0,
        };
        let mut writer = trickling(alloc, usize::MAX);
        let options = asked_form(lines, shown);
        let outcome = unsaved(&rt, alloc, &options, &mut reader, &mut writer);
        assert!(rt; outcome.is_ok() == true);
        assert!(rt; writer.taken.as_slice() == wanted.as_bytes());
    }
    Ok(())
}

/// What a live run writes behind its totals in either form.
const BEHIND: [(Lines, &str); 2] = [
    (
        Lines::Explained,
        "\
packets 3 pass 2 drop 1
interface 0 out rule 1 line 2 packets 1 | out permit+reflect ipv4 10.0.0.1 any udp dport 53
session packets 1
default packets 1
full packets 0
worn packets 0
no-pages packets 0
not-ip packets 0
malformed packets 0
short packets 0
sessions entered 1
sessions matched 1
sessions expired 0
session interface 0 udp 10.0.0.1 port 1000 and 10.0.0.2 port 53 last 105 until 705
",
    ),
    (
        Lines::Json,
        "\
{\"packets\":3,\"pass\":2,\"drop\":1}
{\"interface\":0,\"direction\":\"out\",\"rule\":1,\"line\":2,\"text\":\"out permit+reflect ipv4 10.0.0.1 any udp dport 53\",\"packets\":1}
{\"reason\":\"session\",\"packets\":1}
{\"reason\":\"default\",\"packets\":1}
{\"reason\":\"full\",\"packets\":0}
{\"reason\":\"worn\",\"packets\":0}
{\"reason\":\"no-pages\",\"packets\":0}
{\"reason\":\"not-ip\",\"packets\":0}
{\"reason\":\"malformed\",\"packets\":0}
{\"reason\":\"short\",\"packets\":0}
{\"sessions_entered\":1}
{\"sessions_matched\":1}
{\"sessions_expired\":0}
{\"interface\":0,\"protocol\":17,\"ends\":[{\"address\":\"10.0.0.1\",\"port\":1000},{\"address\":\"10.0.0.2\",\"port\":53}],\"last\":105,\"until\":705}
",
    ),
];

/// Live runs by four workers on a capture behind whose totals hits and sessions are told, a few bytes at a time.
#[test]
fn live_runs_count_while_packets_come(rt: HostRuntime) -> Result<(), Fail> {
    let alloc = rt.alloc();
    let bytes = decode_digits(alloc, CAPTURE)?;
    for (lines, wanted) in BEHIND {
        let mut reader = Drip {
            rest: &bytes,
            reads: usize::MAX,
            failures: 0,
        };
        let mut writer = trickling(alloc, usize::MAX);
        let mut options = by_four(asked_form(lines, Shown::Nothing));
        options.hits = true;
        options.sessions = true;
        let outcome = unsaved(&rt, alloc, &options, &mut reader, &mut writer);
        assert!(rt; outcome.is_ok() == true);
        assert!(rt; writer.taken.as_slice() == wanted.as_bytes());
    }
    Ok(())
}

// For tests of live runs: what is saved of the capture's first bytes, where so many more writes go through to the file of
// dropped packets; and what came of the run.
fn saved_of<T: Clock + Threads + Wait + Sync>(
    rt: &T,
    alloc: Global,
    bytes: &[u8],
    count: usize,
    writes: usize,
) -> (Result<Totals, Fault>, Trickle, LiveSaves<Trickle>) {
    let mut reader = Drip {
        rest: &bytes[..count.min(bytes.len())],
        reads: count,
        failures: 0,
    };
    let mut writer = trickling(alloc, usize::MAX);
    let mut saves = LiveSaves {
        files: Saves {
            drops: Some(trickling(alloc, writes)),
            passes: Some(trickling(alloc, usize::MAX)),
        },
    };
    let asked = LiveAsked {
        options: &DEFAULTS,
        text: POLICY,
    };
    let outcome = run_live(rt, alloc, asked, &mut reader, &mut writer, &mut saves);
    (outcome, writer, saves)
}

/// How many bytes came before a read failed, how many bytes of the capture are those of its header and of the packets that
/// passed then, and where those of the packets end that were dropped, which begin at byte 140.
const SAVED: [(usize, usize, usize); 6] = [
    (23, 0, 140),
    (24, 24, 140),
    (81, 24, 140),
    (82, 82, 140),
    (197, 140, 140),
    (198, 140, 198),
];

// For tests of live runs: the bytes from one place to another, as far as they are there.
fn between(bytes: &[u8], start: usize, end: usize) -> &[u8] {
    let end = end.min(bytes.len());
    &bytes[start.min(end)..end]
}

/// Live runs that save packets of a capture of which a read fails, within a record or behind one.
#[test]
fn packets_are_saved_as_soon_as_their_records_are_there(rt: HostRuntime) -> Result<(), Fail> {
    let alloc = rt.alloc();
    let bytes = decode_digits(alloc, CAPTURE)?;
    for (count, passing, end) in SAVED {
        let (outcome, _, saves) = saved_of(&rt, alloc, &bytes, count, usize::MAX);
        assert!(rt; outcome == Err(Fault::Read), "after {count} bytes");
        let Saves { drops, passes } = saves.files;
        let passes = passes.expect(&rt, "a file of packets that pass");
        let drops = drops.expect(&rt, "a file of dropped packets");
        assert!(rt;
            passes.taken.as_slice() == between(&bytes, 0, passing),
            "after {count} bytes"
        );
        let (header, records) = drops.taken.split_at(drops.taken.len().min(24));
        assert!(rt;
            header == between(&bytes, 0, passing.min(24)),
            "after {count} bytes"
        );
        assert!(rt; records == between(&bytes, 140, end), "after {count} bytes");
    }
    Ok(())
}

/// A live run whose file of dropped packets fails, in the capture's header or behind it, after so many bytes: it is told once,
/// by which device, and the lines before it stand.
#[test]
fn a_file_that_fails_ends_a_live_run(rt: HostRuntime) -> Result<(), Fail> {
    let alloc = rt.alloc();
    let bytes = decode_digits(alloc, CAPTURE)?;
    let all = "1 pass rule 1 reflect\n2 pass session\n3 drop default\n";
    for (writes, lines) in [(0, ""), (23, ""), (24, all), (81, all)] {
        let (outcome, writer, saves) = saved_of(&rt, alloc, &bytes, usize::MAX, writes);
        assert!(rt; outcome == Err(Fault::Write), "after {writes} bytes");
        assert!(rt;
            writer.taken.as_slice() == lines.as_bytes(),
            "after {writes} bytes"
        );
        let Saves {
            drops,
            passes: _passes,
        } = saves.files;
        let drops = drops.expect(&rt, "a file of dropped packets");
        assert!(rt;
            (writer.failures, drops.failures) == (0, 1),
            "after {writes} bytes"
        );
    }
    Ok(())
}
