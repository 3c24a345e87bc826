//! The whole filter as a library: judges of packets, each with callers of its own, over session tables that they share.
#![tactic(auto)]

mod callers_split_and_joined;
mod counts;
mod end_fault;
mod judge;
mod judge_aged;
mod judge_closed;
mod judge_held;
mod judge_made_and_ruled;
mod judge_of_packets;
mod judge_renewed;
mod judge_swept;
mod judged;
mod judges_met;
mod judges_split_and_joined;
mod loads_ahead;
mod packet_bucket;
mod rule_counts;
mod tables_share;
mod take_fault;

pub use counts::Counts;
pub use end_fault::EndFault;
pub use judge::Judge;
pub use judge_swept::Swept;
pub use judged::Judged;
pub use packet_bucket::{FlowBucket, flow_bucket};
pub use rule_counts::RuleCounts;
pub use take_fault::TakeFault;
