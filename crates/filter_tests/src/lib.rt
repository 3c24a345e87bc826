//! The tests of each crate from `packet_view` to `flow_judge`, and of `capture_shards`, over its public calls.
#![tactic(auto)]

#[cfg(test)]
mod tests;
