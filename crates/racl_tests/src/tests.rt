//! The tests of the crates from `racl_options` to `racl_runs`.
use std::test::Fail;

mod captures_in_inputs;
mod checks;
mod command_line_words;
mod comparisons;
mod devices;
mod explained_packets;
mod first_bytes;
mod hits_and_sessions;
mod input_parts;
mod pace;
mod reports;
mod runs;
mod saved;

// What tests of racl's crates answer where what they begin with was refused.
fn racl_test_refused() -> Result<(), Fail> {
    Err("what the test begins with was refused")?
}
