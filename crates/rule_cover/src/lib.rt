//! What rules leave of the packets that others match: one packet that none of them matches, or that there is none.
#![tactic(auto)]

mod flag_cuts;
mod leaving_out;
mod numbers_of_rule;
mod packet_in_region;
mod packet_set;
mod piece_meeting;
mod region;
mod region_cuts;
mod region_of_rule;
mod same_rules;
mod uncovered_packets;

pub use leaving_out::least_takers;
pub use same_rules::{same_rule, same_rules_match_the_same_packets};
pub use uncovered_packets::{Cover, uncovered};
