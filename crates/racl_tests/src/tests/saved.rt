//! Records of chosen packets.
use packet_view::Order;
use racl_io::Device;
use racl_views::{Chosen, write_chosen_records};
use session_state::Verdict;
use std::alloc::{AllocError, Global};
use std::test::Fail;

// Records that keep two bytes, none and three, each of 64; and one that is cut. Each number has its highest byte first.
const TWO: &[u8] = b"\0\0\0\x64\0\0\0\x01\0\0\0\x02\0\0\0\x40ab";

const NONE: &[u8] = b"\0\0\0\x65\0\0\0\x02\0\0\0\0\0\0\0\x40";

const THREE: &[u8] = b"\0\0\0\x66\0\0\0\x03\0\0\0\x03\0\0\0\x40cde";

const CUT: &[u8] = b"\0\0\0\x67\0\0\0\x04\0\0\0\x03\0\0\0\x40cd";

// For tests of saved packets: these records, one behind the other.
fn joined(alloc: Global, parts: [&'static [u8]; 4]) -> Result<Vec<u8>, AllocError> {
    let mut bytes = Vec::new(alloc);
    for part in parts {
        bytes.extend_from_slice(part)?;
    }
    Ok(bytes)
}

/// Saved packets: which records are chosen by their verdicts, and that a cut one is left out.
#[test]
fn records_are_chosen_by_their_verdicts(rt: HostRuntime) -> Result<(), Fail> {
    const VERDICTS: [Verdict; 3] = [Verdict::Reflect(1), Verdict::Deny(2), Verdict::NotIp];
    const CASES: [(Chosen, [&[u8]; 4], [&[u8]; 4]); 4] = [
        (
            Chosen::Passing,
            [TWO, NONE, THREE, CUT],
            [TWO, b"", THREE, b""],
        ),
        (
            Chosen::Dropped,
            [TWO, NONE, THREE, CUT],
            [b"", NONE, b"", b""],
        ),
        (
            Chosen::Dropped,
            [THREE, THREE, b"", b""],
            [THREE, b"", b"", b""],
        ),
        (Chosen::Passing, [CUT, b"", b"", b""], [b""; 4]),
    ];
    for (chosen, records, wanted) in CASES {
        let bytes = joined(rt.alloc(), records)?;
        let mut writer = Device::new(Vec::new(rt.alloc()));
        write_chosen_records(&mut writer, &bytes, Order::BigNanos, chosen, &VERDICTS)?;
        assert!(rt; writer.inner == joined(rt.alloc(), wanted)?);
    }
    Ok(())
}

// A record that keeps 60,000 bytes, and one that keeps 70,000.
const LONG: [u8; 16] = [0, 0, 0, 1, 0, 0, 0, 0, 0, 0, 0xea, 0x60, 0, 0, 0xea, 0x60];

const LONGER: [u8; 16] = [0, 0, 0, 2, 0, 0, 0, 0, 0, 1, 0x11, 0x70, 0, 1, 0x11, 0x70];

/// Saved packets: one that has more bytes than the room where they are gathered, between two that fit.
#[test]
fn long_records_are_saved(rt: HostRuntime) -> Result<(), Fail> {
    let mut bytes = Vec::new(rt.alloc());
    for (record, len) in [(LONG, 60_000), (LONGER, 70_000), (LONG, 60_000)] {
        bytes.extend_from_slice(&record)?;
        let end = bytes.len().saturating_add(len);
        bytes.resize(end, 7)?;
    }
    let mut writer = Device::new(Vec::new(rt.alloc()));
    const VERDICTS: [Verdict; 3] = [Verdict::Session; 3];
    write_chosen_records(
        &mut writer,
        &bytes,
        Order::BigNanos,
        Chosen::Passing,
        &VERDICTS,
    )?;
    assert!(rt; writer.inner == bytes);
    Ok(())
}
