//! Shards of a capture.
ghost use Rattle.std.specs.Prelude.{◌<◌, ◌≤◌};

/// One of the shards of a capture, and the tables by whose buckets flows fall to shards.
#[derive(Clone, Copy, Debug, PartialEq, Eq)]
pub struct Shard {
    /// From 1.
    pub number: u64,
    /// How many shards there are.
    pub count: u64,
    /// How many buckets the table of IPv4 flows has, as a power of two.
    pub log2_four: u32,
    /// How many that of IPv6 flows has.
    pub log2_six: u32,
    pub ghost sound: { (1 ≤ number) × (1 ≤ count) × (log2_four < 64) × (log2_six < 64) },
}
