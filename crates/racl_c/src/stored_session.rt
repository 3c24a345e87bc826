//! A session of a table that was closed, as C is told of it.

/// An end of a flow. The address has its bytes in their order on the wire: of IPv4 they are the first four, and the others are
/// 0. Without ports its port is 0.
#[repr(C)]
#[derive(Clone, Copy)]
pub struct StoredEnd {
    pub address: [u8; 16],
    pub port: u16,
    pub flags: u8,
}

/// A session: its flow, the flags that are kept of each end, the latest second of its packets, and the last second in which it
/// is live.
#[repr(C)]
#[derive(Clone, Copy)]
pub struct StoredSession {
    pub until: u64,
    pub last: u32,
    pub interface_number: u8,
    pub family: u8,
    pub protocol: u8,
    pub first: StoredEnd,
    pub second: StoredEnd,
}
