//! A capture that begins within an input: what of it was read before, how many bytes its input may have, and a record that is
//! too long.
ghost use Rattle.std.specs.Prelude.{◌≡◌, ◌-◌, ◌<◌, ◌^◌, None, length};

use capture_stream::{Judge, Unsaved};
use filter_run::{CaptureStart, OpenCapture, report_capture};
use packet_view::{Order, Packets};
use racl_io::{Device, DeviceFault, Fault, MOST_BYTES, ReportLines, Source};
use session_state::{Shown, Verdict};
use std::alloc::{AllocError, Global};
use std::test::Fail;

/// Lets each packet pass by rule 1.
#[derive(Drop)]
struct Permitting {
    alloc: Global,
}

impl Judge for Permitting {
    ghost became = { λ _ packets said _. length said ≡ length packets };

    ghost judged = { λ _ packets said. length said ≡ length packets };

    // For tests of captures in inputs: each of these packets passes by rule 1.
    fn judge(&mut self, packets: Packets<'_>) -> Result<Vec<Verdict>, AllocError> {
        vec![in self.alloc; Verdict::Permit(1); packets.count()]
    }
}

/// Gives these bytes, and behind them so many of bytes that are repeated, and not more than so many a read. Then it fails, or
/// is at its end.
#[derive(Drop)]
struct Paced<'a> {
    rest: &'a [u8],
    repeated: &'a [u8],
    left: usize,
    most: usize,
    fails: bool,
    failures: u64,
}

impl Paced<'_> {
    // For tests of captures in inputs: how many bytes weren't read.
    fn unread(&self) -> usize {
        self.rest.len().saturating_add(self.left)
    }
}

impl Source for Paced<'_> {
    ghost bytes = { λ _. None };

    ghost failures = { λ p. p.failures };

    // For tests of captures in inputs: a read of some bytes, which fails or gives none where no byte is left.
    fn read(&mut self, buf: &mut [u8]) -> Result<usize, DeviceFault> {
        if self.rest.is_empty() {
            let count = self.repeated.len().min(self.left);
            self.rest = &self.repeated[..count];
            self.left -= count;
        }
        if self.rest.is_empty() && self.fails {
            self.failures += 1;
            return Err(DeviceFault);
        }
        let count = self.rest.len().min(buf.len()).min(self.most);
        buf[..count].copy_from_slice(&self.rest[..count]);
        self.rest = &self.rest[count..];
        Ok(count)
    }
}

/// Which bytes of a capture were read before, where it begins in an input, if it is part of one, and from how many packets of a
/// read on reads grow, if they do.
#[derive(Clone, Copy)]
struct Begun<'a> {
    order: Order,
    front: &'a [u8],
    input: Option<usize>,
    many: Option<usize>,
}

// For tests of captures in inputs: how many packets a capture has that begins so, and whether it is cut; or its fault. The lines
// of its packets are written.
fn report(
    alloc: Global,
    begun: Begun<'_>,
    reader: &mut Paced<'_>,
    teller: &mut ReportLines,
    lines: &mut Device<Vec<u8>>,
) -> Result<(u64, bool), Fault>
    requires reader { reader.old.failures < 2 ^ 64 - 1 }
    requires lines { lines.old.failures < 2 ^ 64 - 1 }
{
    let before = match begun.input {
        None => 0,
        Some(before) => before,
    };
    if begun.front.len() > 131_072 || before > 131_072 {
        return Err(Fault::Short);
    }
    let capture = OpenCapture {
        judges: Permitting { alloc },
        start: CaptureStart {
            order: begun.order,
            front: Vec::from_slice(alloc, begun.front)?,
            input: begun.input,
        },
        many: begun.many,
    };
    let told = report_capture(alloc, reader, lines, teller, &mut Unsaved, capture)?;
    Ok((told.totals.packets, told.totals.truncated))
}

/// The lines of three packets, of 14 bytes each.
const LINES: &[u8] = b"1 pass rule 1\n2 pass rule 1\n3 pass rule 1\n";

/// Three records with frames of four bytes, of 20 bytes each. Each number has its highest byte first.
const THREE: &[u8] = b"\
\0\0\0\x07\0\0\0\0\0\0\0\x04\0\0\0\x04abcd\
\0\0\0\x08\0\0\0\0\0\0\0\x04\0\0\0\x04efgh\
\0\0\0\x09\0\0\0\0\0\0\0\x04\0\0\0\x04ijkl";

/// A capture of which each front was read before, and one of each length; where reads give few bytes, each fourth.
#[test]
fn a_front_is_read_before_a_capture(rt: HostRuntime) -> Result<(), Fail> {
    let alloc = rt.alloc();
    let mut teller = ReportLines::new(alloc, Shown::Every, false)?;
    for place in 0..=60usize {
        for (front, length) in [(place, 60), (place.min(30), place)] {
            for most in [1, 7, 65_536] {
                if most < 65_536 && place % 4 != 0 {
                    continue;
                }
                let capture = &THREE[..length.min(THREE.len())];
                let (front, rest) = capture.split_at(front.min(capture.len()));
                let begun = Begun {
                    order: Order::Big,
                    front,
                    input: Some(80),
                    many: None,
                };
                let mut reader = Paced {
                    rest,
                    repeated: b"",
                    left: 0,
                    most,
                    fails: false,
                    failures: 0,
                };
                let mut lines = Device::new(Vec::new(alloc));
                let outcome = report(alloc, begun, &mut reader, &mut teller, &mut lines);
                // A record has 20 bytes, and a line 14.
                let wanted = (length as u64 / 20, length % 20 != 0);
                let told = &LINES[..(length / 20 * 14).min(LINES.len())];
                assert!(rt; outcome == Ok(wanted), "{length} bytes, {most} a read");
                assert!(rt; lines.inner.as_slice() == told, "{length} bytes");
            }
        }
    }
    Ok(())
}

// For tests of captures in inputs: so many records that are alike, of 65,536 bytes each. The lowest byte of a number is its first.
fn large_records(alloc: Global, count: usize) -> Result<Vec<u8>, AllocError> {
    let frame = vec![in alloc; 0u8; 65_520]?;
    let mut records = Vec::new(alloc);
    for _ in 0..count {
        records.extend_from_slice(&[7, 0, 0, 0, 0, 0, 0, 0, 0xf0, 0xff, 0, 0, 0xf0, 0xff, 0, 0])?;
        records.extend_from_slice(&frame)?;
    }
    Ok(records)
}

/// How many bytes of an input stand before a capture, and how many of a record and a half were read before.
const BEFORE: usize = 65_536;

const FRONT: usize = 98_304;

/// How many bytes come behind these until an input has 64 MiB, which are 1024 times 65,536.
const MORE: usize = 66_945_024;

/// How many bytes come behind a front, and whether a read fails then; what is answered, how many bytes are left, and how often
/// a read failed; and how many bytes the lines have. Lines of 1 to 9 have 14 bytes, those up to 99 have 15, up to 999 have 16,
/// and the others 17: of 1023 packets 16,284, of 1022 packets 16,267.
const LIMITS: [(usize, bool, Result<(u64, bool), Fault>, usize, u64, usize); 5] = [
    (MORE - 1, false, Ok((1022, true)), 0, 0, 16_267),
    (MORE, false, Ok((1023, false)), 0, 0, 16_284),
    (MORE, true, Err(Fault::Read), 0, 1, 16_284),
    (MORE + 1, true, Err(Fault::TooLarge), 0, 0, 16_284),
    (MORE + MORE, true, Err(Fault::TooLarge), MORE - 1, 0, 16_284),
];

/// How many bytes the lines have where a read fails and reads grow: those of 896 packets. The front has a record and a half, the
/// reads of 64 KiB to 4 MiB, each twice the one before, give 127 more, and six of 8 MiB give 768. Behind them all that
/// the input may have was asked for at once, and what came of it is lost.
const FAILED: usize = 14_228;

/// An input has at most 64 MiB, and no more than a byte is read behind them.
#[test]
fn an_input_has_64_mib_at_most(rt: HostRuntime) -> Result<(), Fail> {
    let alloc = rt.alloc();
    let mut teller = ReportLines::new(alloc, Shown::Every, false)?;
    // Reads ask for 8 MiB at most.
    let records = large_records(alloc, 128)?;
    let (front, rest) = records.split_at(FRONT.min(records.len()));
    for many in [None, Some(1)] {
        for (more, fails, answer, unread, failures, told) in LIMITS {
            let begun = Begun {
                order: Order::Little,
                front,
                input: Some(BEFORE),
                many,
            };
            let mut reader = Paced {
                rest,
                repeated: &records,
                left: more.saturating_sub(rest.len()),
                most: usize::MAX,
                fails,
                failures: 0,
            };
            let mut lines = Device::new(Vec::new(alloc));
            let outcome = report(alloc, begun, &mut reader, &mut teller, &mut lines);
            assert!(rt; outcome == answer, "{more} bytes");
            assert!(rt;
                (reader.unread(), reader.failures) == (unread, failures),
                "{more} bytes"
            );
            let told = if many.is_some() && failures > 0 {
                FAILED
            } else {
                told
            };
            assert!(rt; lines.inner.len() == told, "{more} bytes");
        }
    }
    Ok(())
}

/// A capture that is no part of an input may have more. Twice as many bytes behind that front are 2044 records with it, and half of
/// one.
#[test]
fn a_capture_alone_has_no_such_limit(rt: HostRuntime) -> Result<(), Fail> {
    let alloc = rt.alloc();
    let mut teller = ReportLines::new(alloc, Shown::Every, false)?;
    let records = large_records(alloc, 2)?;
    let (front, rest) = records.split_at(FRONT.min(records.len()));
    let begun = Begun {
        order: Order::Little,
        front,
        input: None,
        many: None,
    };
    let mut reader = Paced {
        rest,
        repeated: &records,
        left: (MORE + MORE).saturating_sub(rest.len()),
        most: usize::MAX,
        fails: false,
        failures: 0,
    };
    let mut lines = Device::new(Vec::new(alloc));
    let outcome = report(alloc, begun, &mut reader, &mut teller, &mut lines);
    assert!(rt; outcome == Ok((2044, true)));
    Ok(())
}

/// Two records of 20 bytes, and the header of one that is too long, which keeps 262,145 bytes.
const LONG: &[u8] = b"\
\x07\0\0\0\0\0\0\0\x04\0\0\0\x04\0\0\0abcd\
\x08\0\0\0\0\0\0\0\x04\0\0\0\x04\0\0\0efgh\
\x09\0\0\0\0\0\0\0\x01\0\x04\0\x01\0\x04\0";

/// Where a capture begins in an input, if it is part of one, and whether a read fails 100 bytes behind a record that is too long;
/// what is answered, how many bytes are left, and how often a read failed.
const BEHIND: [(Option<usize>, bool, Fault, usize, u64); 4] = [
    (Some(80), false, Fault::LongRecord(3), 0, 0),
    (Some(80), true, Fault::Read, 0, 1),
    (None, false, Fault::LongRecord(3), 100, 0),
    (None, true, Fault::LongRecord(3), 100, 0),
];

/// Behind a record that is too long an input is read to its end before that is told, and a capture that is no part of one isn't.
/// Each front was read before, or each eighth where reads give few bytes or fail.
#[test]
fn a_long_record_is_told_behind_its_input(rt: HostRuntime) -> Result<(), Fail> {
    let alloc = rt.alloc();
    let mut teller = ReportLines::new(alloc, Shown::Every, false)?;
    for front in 0..=56usize {
        for most in [1, 7, 65_536] {
            for (input, fails, fault, unread, failures) in BEHIND {
                if front % 8 != 0 && (most < 65_536 || fails) {
                    continue;
                }
                let (front, rest) = LONG.split_at(front.min(LONG.len()));
                let begun = Begun {
                    order: Order::Little,
                    front,
                    input,
                    many: None,
                };
                let mut reader = Paced {
                    rest,
                    repeated: THREE,
                    left: 100,
                    most,
                    fails,
                    failures: 0,
                };
                let mut lines = Device::new(Vec::new(alloc));
                let outcome = report(alloc, begun, &mut reader, &mut teller, &mut lines);
                assert!(rt; outcome == Err(fault), "{most} a read");
                assert!(rt;
                    (reader.unread(), reader.failures) == (unread, failures),
                    "{most} a read"
                );
                assert!(rt; lines.inner.as_slice() == &LINES[..28], "{most} a read");
            }
        }
    }
    Ok(())
}

/// How many bytes come behind the header of a record that is too long until an input has 64 MiB, where 80 bytes stand before its
/// records, and 56 of them end with that header.
const REST: usize = 67_108_728;

/// How many bytes come behind that header, and whether a read fails then; what is answered, how many bytes are left, and how often
/// a read failed.
const LATER: [(usize, bool, Fault, usize, u64); 4] = [
    (REST, false, Fault::LongRecord(3), 0, 0),
    (REST, true, Fault::Read, 0, 1),
    (REST + 1, true, Fault::TooLarge, 0, 0),
    (REST + REST, true, Fault::TooLarge, REST - 1, 0),
];

/// An input that has too many bytes is too large, though a record before them is too long.
#[test]
fn too_many_bytes_go_before_a_long_record(rt: HostRuntime) -> Result<(), Fail> {
    let alloc = rt.alloc();
    let mut teller = ReportLines::new(alloc, Shown::Every, false)?;
    let zeros = vec![in alloc; 0u8; 65_536]?;
    for front in [0, 30, 56usize] {
        for (left, fails, fault, unread, failures) in LATER {
            let (front, rest) = LONG.split_at(front.min(LONG.len()));
            let begun = Begun {
                order: Order::Little,
                front,
                input: Some(80),
                many: None,
            };
            let mut reader = Paced {
                rest,
                repeated: &zeros,
                left,
                most: usize::MAX,
                fails,
                failures: 0,
            };
            let mut lines = Device::new(Vec::new(alloc));
            let outcome = report(alloc, begun, &mut reader, &mut teller, &mut lines);
            assert!(rt; outcome == Err(fault), "{left} bytes");
            assert!(rt;
                (reader.unread(), reader.failures) == (unread, failures),
                "{left} bytes"
            );
        }
    }
    Ok(())
}
