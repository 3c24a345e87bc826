//! Packets dealt to workers, and what the records of all workers say together.
#![tactic(auto)]

mod chunk;
mod chunk_dealing;
mod chunk_jobs;
mod dealer;
mod dealing_in_threads;
mod dealt_chunk;
mod hashed_flow;
mod other_sighting;
mod plain_sighting;
mod tasks_in_threads;
mod worker_of_flow;
mod worker_record_laws;

pub use dealer::{Dealer, worker_of_packet};
pub use dealing_in_threads::deal_packets;
pub use dealt_chunk::{DealtChunk, DealtPacket, DealtRoom};
pub use hashed_flow::{HashedFlow, key_hash};
pub use other_sighting::{OtherSighting, flow_of_frame, see_other};
pub use plain_sighting::{PlainSighting, see_plain};
pub use tasks_in_threads::{Task, run_all};
pub use worker_of_flow::{Dealing, worker_of};
pub use worker_record_laws::{
    ageing_workers_give_one_report, ageing_workers_keep_what_is_live, deeds_judge_each_packet,
    few_packets_have_pages, packets_pass_at_their_places, removals_are_at_most_packets,
    workers_give_one_report,
};
