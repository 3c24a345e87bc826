//! Two policies beside one another: an example of a packet for each two of their rules that let different things become of it.
#![tactic(auto)]

mod compared_policies;
mod compared_sides;
mod compared_texts;
mod comparison_report;
mod decider;
mod difference;
mod example_words;
mod finding;
mod own_addresses;
mod pair_of_rules;
mod starting_packets;
mod taking_rules;

pub use compared_policies::compare_policies;
pub use compared_texts::{CompareFault, MOST_TESTS, compare_texts};
pub use difference::{Comparison, Difference, Pair};
