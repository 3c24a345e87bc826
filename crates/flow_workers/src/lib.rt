//! Packets judged by many workers over session tables that they share.
#![tactic(auto)]

mod ageing_clock;
mod gate;
mod handing_over;
mod judge_dealt_packets;
mod judge_in_one_thread;
mod judge_in_threads;
mod loads_ahead;
mod packet_plan;
mod packet_verdict;
mod run_at_once;
mod run_fault;
mod session_tables;
mod share_splitting;
mod table_closing;
mod table_renewal;
mod table_update;
mod turns_in_threads;
mod update_tries;
mod verdict_merge;
mod viewed_packet;
mod worker_ageing;
mod worker_callers;
mod worker_packet_verdict;
mod worker_results;
mod worker_setup;
mod worker_share;
mod worker_turn;
mod workers;

pub use bihash_table::CloseFault;
pub use flow_dealing::Dealing;
pub use flow_filter::Filter;
pub use gate::Gate;
pub use packet_verdict::{judge, try_judge, try_judge_at};
pub use run_at_once::run_workers;
pub use run_fault::RunFault;
pub use session_state::Verdict;
pub use session_tables::{Callers, Tables, create_cutting_tables, create_tables};
pub use table_closing::{Unclosed, close_tables};
pub use table_renewal::renew_tables;
pub use worker_setup::Setup;
pub use workers::Workers;
