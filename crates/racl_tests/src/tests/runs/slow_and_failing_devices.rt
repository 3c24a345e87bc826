//! Runs on devices that move a byte at a time, and that fail.
ghost use Rattle.std.specs.Prelude.{◌≡◌, None};

use super::{DEFAULTS, whole_run_input, whole_run_report};
use racl_io::decode_digits;
use racl_runs::{Device, DeviceFault, Fault, Sink, Source, run, status};
use std::alloc::Global;
use std::test::Fail;

/// Gives one byte a read. Once it has made its reads it fails, and then goes on.
#[derive(Drop)]
pub struct Drip<'a> {
    pub rest: &'a [u8],
    pub reads: usize,
    pub failures: u64,
}

impl Source for Drip<'_> {
    ghost bytes = { λ _. None };

    ghost failures = { λ d. d.failures };

    // For tests of slow and failing devices: a read of one byte, or a failing one.
    fn read(&mut self, buf: &mut [u8]) -> Result<usize, DeviceFault> {
        if self.reads == 0 {
            self.failures += 1;
            self.reads = usize::MAX;
            return Err(DeviceFault);
        }
        self.reads -= 1;
        let count = self.rest.len().min(buf.len()).min(1);
        buf[..count].copy_from_slice(&self.rest[..count]);
        self.rest = &self.rest[count..];
        Ok(count)
    }
}

/// Takes one byte a write. Once it has made its writes it fails, and then goes on.
#[derive(Drop)]
pub struct Trickle {
    pub taken: Vec<u8>,
    writes: usize,
    pub failures: u64,
}

impl Sink for Trickle {
    ghost bytes = { λ _. None };

    ghost failures = { λ t. t.failures };

    // For tests of slow and failing devices: a write of one byte, or a failing one.
    fn write(&mut self, buf: &[u8]) -> Result<usize, DeviceFault> {
        let Some(first) = buf.first() else {
            self.failures += 1;
            return Ok(0);
        };
        if self.writes == 0 || self.taken.push(*first).is_err() {
            self.failures += 1;
            self.writes = usize::MAX;
            return Err(DeviceFault);
        }
        self.writes -= 1;
        Ok(1)
    }
}

/// Takes no byte.
#[derive(Drop)]
struct Stopped {
    failures: u64,
}

impl Sink for Stopped {
    ghost bytes = { λ _. None };

    ghost failures = { λ s. s.failures };

    // For tests of slow and failing devices: a write that takes no byte.
    fn write(&mut self, _buf: &[u8]) -> Result<usize, DeviceFault> {
        self.failures += 1;
        Ok(0)
    }
}

/// For tests of slow and failing devices: a device that takes one byte a write, and makes so many writes.
pub fn trickling(alloc: Global, writes: usize) -> Trickle
    ensures { result.failures ≡ 0 }
{
    Trickle {
        taken: Vec::new(alloc),
        writes,
        failures: 0,
    }
}

/// A run on slow devices: a read and a write for each byte.
#[test]
fn run_on_slow_devices(rt: HostRuntime) {
    let alloc = rt.alloc();
    let mut reader = Drip {
        rest: whole_run_input(),
        reads: usize::MAX,
        failures: 0,
    };
    let mut writer = trickling(alloc, usize::MAX);
    let outcome = run(&rt, alloc, &DEFAULTS, &mut reader, &mut writer);
    assert!(rt; status(&outcome) == 0);
    assert!(rt; writer.taken.as_slice() == whole_run_report());
}

/// Runs on failing devices: where a read fails, of the policy, the marker line, the digits or at the end, nothing is written.
#[test]
fn runs_with_failing_reads(rt: HostRuntime) {
    let alloc = rt.alloc();
    let input = whole_run_input();
    for reads in [0, 1, 21, 72, 74, 76, 130, 400, input.len()] {
        let mut reader = Drip {
            rest: input,
            reads,
            failures: 0,
        };
        let mut writer = trickling(alloc, usize::MAX);
        let outcome = run(&rt, alloc, &DEFAULTS, &mut reader, &mut writer);
        assert!(rt; outcome == Err(Fault::Read), "after {reads} reads");
        assert!(rt; reader.failures == 1, "after {reads} reads");
        assert!(rt; writer.taken.len() == 0, "after {reads} reads");
    }
}

/// Runs on failing devices: where a write fails, of a line's first byte, its last one or one between, the report was written
/// up to there.
#[test]
fn runs_with_failing_writes(rt: HostRuntime) {
    let alloc = rt.alloc();
    let report = whole_run_report();
    for writes in [0, 1, 21, 22, 36, 37, 51, 52, 75] {
        let mut reader = Device::new(whole_run_input());
        let mut writer = trickling(alloc, writes);
        let outcome = run(&rt, alloc, &DEFAULTS, &mut reader, &mut writer);
        assert!(rt; outcome == Err(Fault::Write), "after {writes} writes");
        assert!(rt; writer.failures == 1, "after {writes} writes");
        assert!(rt; writer.taken.as_slice() == &report[..writes.min(report.len())]);
    }
}

// For tests of slow and failing devices: a line of so many bytes that says nothing, and then the whole input, of which the capture
// stands as it is: a policy of 72 bytes, a marker line of 5, a header of 24 and three records of 58, 275 bytes together.
fn whole_run_bytes(alloc: Global, before: usize) -> Result<Vec<u8>, Fault> {
    let input = whole_run_input();
    let (policy, behind) = input.split_at(input.len().min(72));
    let (_, digits) = behind.split_at(behind.len().min(4));
    let mut bytes = vec![in alloc; b'#'; before.saturating_sub(1)]?;
    bytes.extend_from_slice(b"\n")?;
    bytes.extend_from_slice(policy)?;
    bytes.extend_from_slice(b"pcap\n")?;
    let capture = decode_digits(alloc, digits)?;
    bytes.extend_from_slice(&capture)?;
    Ok(bytes)
}

/// Runs on failing devices: a capture as it is, of which one record and a half stand in the front of 262,144 bytes. Where a read
/// fails, before the front's end or behind it, nothing is written, of the first record neither.
#[test]
fn runs_with_failing_reads_behind_the_front(rt: HostRuntime) -> Result<(), Fail> {
    let alloc = rt.alloc();
    let input = whole_run_bytes(alloc, 262_144 - 188)?;
    assert!(rt; input.len() == 262_144 + 87);
    for reads in [262_143, 262_144, 262_145, 262_173, 262_174, 262_231] {
        let mut reader = Drip {
            rest: &input,
            reads,
            failures: 0,
        };
        let mut writer = trickling(alloc, usize::MAX);
        let outcome = run(&rt, alloc, &DEFAULTS, &mut reader, &mut writer);
        assert!(rt; outcome == Err(Fault::Read), "after {reads} reads");
        assert!(rt; reader.failures == 1, "after {reads} reads");
        assert!(rt; writer.taken.len() == 0, "after {reads} reads");
    }
    let mut reader = Drip {
        rest: &input,
        reads: usize::MAX,
        failures: 0,
    };
    let mut writer = trickling(alloc, usize::MAX);
    let outcome = run(&rt, alloc, &DEFAULTS, &mut reader, &mut writer);
    assert!(rt; status(&outcome) == 0);
    assert!(rt; writer.taken.as_slice() == whole_run_report());
    Ok(())
}

/// Runs on failing devices: where a write fails of the report on a capture as it is, it was written up to there.
#[test]
fn runs_on_a_capture_with_failing_writes(rt: HostRuntime) -> Result<(), Fail> {
    let alloc = rt.alloc();
    let input = whole_run_bytes(alloc, 1)?;
    let report = whole_run_report();
    for writes in [0, 1, 21, 22, 37, 52, 75] {
        let mut reader = Device::new(input.as_slice());
        let mut writer = trickling(alloc, writes);
        let outcome = run(&rt, alloc, &DEFAULTS, &mut reader, &mut writer);
        assert!(rt; outcome == Err(Fault::Write), "after {writes} writes");
        assert!(rt; writer.failures == 1, "after {writes} writes");
        assert!(rt; writer.taken.as_slice() == &report[..writes.min(report.len())]);
    }
    Ok(())
}

/// Runs on failing devices: one that takes no byte of the report.
#[test]
fn a_write_of_nothing_is_a_failed_one(rt: HostRuntime) {
    let mut reader = Device::new(whole_run_input());
    let mut writer = Stopped { failures: 0 };
    let outcome = run(&rt, rt.alloc(), &DEFAULTS, &mut reader, &mut writer);
    assert!(rt; outcome == Err(Fault::Write));
    assert!(rt; writer.failures == 1);
}
