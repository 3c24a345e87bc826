//! The first bytes of files, and what those are that are no captures of Ethernet.

use racl_io::{Device, FrontKept, Other, other_file, read_until};

// For tests of first bytes: 24 bytes that begin with these and have this link field.
fn first_bytes(magic: [u8; 4], link: [u8; 4]) -> [u8; 24] {
    let mut bytes = [0; 24];
    bytes[..4].copy_from_slice(&magic);
    bytes[20..].copy_from_slice(&link);
    bytes
}

// For tests of first bytes: what is told where 23 of these bytes are there.
fn told_of_fewer(bytes: &[u8]) -> Option<Other> {
    other_file(&bytes[..bytes.len().min(23)])
}

/// What was read first of a file, as far as it was read.
#[test]
fn first_bytes_are_kept(rt: HostRuntime) {
    let mut reader = Device::new(FrontKept::new(b"\xd4\xc3\x0a".as_slice()));
    let mut all = Vec::new(rt.alloc());
    assert!(rt; read_until(&mut reader, &mut all, 1) == Ok(false));
    assert!(rt; reader.inner.front() == b"\xd4".as_slice());
    assert!(rt; read_until(&mut reader, &mut all, 100) == Ok(true));
    assert!(rt; reader.inner.front() == b"\xd4\xc3\x0a".as_slice());
}

#[test]
fn first_bytes_tell_other_files(rt: HostRuntime) {
    const CASES: [([u8; 4], [u8; 4], Option<Other>); 7] = [
        ([0xd4, 0xc3, 0xb2, 0xa1], [1, 0, 0, 0], None),
        ([0x0a, 0x0d, 0x0d, 0x0a], [0; 4], Some(Other::Pcapng)),
        ([0x1f, 0x8b, 8, 0], [0; 4], Some(Other::Gzip)),
        ([0xa1, 0xb2, 0xcd, 0x34], [0; 4], Some(Other::Modified)),
        ([0x34, 0xcd, 0xb2, 0xa1], [0; 4], Some(Other::Modified)),
        (
            [0xd4, 0xc3, 0xb2, 0xa1],
            [113, 0, 0, 0],
            Some(Other::Cooked),
        ),
        ([0xa1, 0xb2, 0x3c, 0x4d], [0, 0, 1, 20], Some(Other::Cooked)),
    ];
    for (magic, link, other) in CASES {
        assert!(rt; other_file(&first_bytes(magic, link)) == other);
    }
    let pcapng = first_bytes([0x0a, 0x0d, 0x0d, 0x0a], [0; 4]);
    assert!(rt; told_of_fewer(&pcapng) == None);
}
