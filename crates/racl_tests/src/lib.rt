//! The tests of the crates from `racl_options` to `racl_runs`, with whole inputs and their reports.
#![tactic(auto)]

#[cfg(test)]
mod tests;
