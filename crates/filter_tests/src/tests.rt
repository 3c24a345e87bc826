//! The tests of the crates up to `flow_workers`, and of `capture_shards`.
use session_state::Timeouts;
use std::test::Fail;

mod captures;
mod covers;
mod dealt_packets;
mod filters;
mod frames;
mod index;
mod judges;
mod lazy_patches;
mod matching;
mod policies;
mod session_tables;
mod sessions;
mod shards;
mod workers;

/// The range of all ports, types and codes.
const EVERY: (u16, u16) = (0, 65535);

/// The timeouts where no word sets one, in seconds.
const TIMES: Timeouts = Timeouts {
    established: 86400,
    transient: 120,
    udp: 600,
};

// What tests of policies, filters, dealing and workers answer where what they begin with was refused.
fn filter_test_refused() -> Result<(), Fail> {
    Err("what the test begins with was refused")?
}
