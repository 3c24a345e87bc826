//! A reflexive packet filter from the bytes of an input to those of a report: a policy and a
//! capture in, a verdict on each packet out. The program around it is the crate `racl`.
#![tactic(auto)]

mod asked_lines;
mod capture_header_reading;
mod captures_at_hand;
mod compared_judging;
mod counted_judging;
mod dated_judging;
mod diff_run;
mod digit_captures;
mod expecting_run;
mod held_reports;
mod input_front;
mod interface_run;
mod live_interfaces_run;
mod live_run;
mod live_saves;
mod pace;
mod run_laws;
mod run_plan;
mod runs_end_to_end;
mod shard_run;
mod sized_tables_and_workers;
mod stored_sessions;
mod workers_as_judges;

pub use diff_run::{DiffFault, PolicyTexts, run_diff};
pub use expecting_run::{Compared, ExpectingAsked, run_expecting};
pub use interface_run::run_interfaces;
pub use live_interfaces_run::run_live_interfaces;
pub use live_run::{LiveAsked, run_live};
pub use live_saves::LiveSaves;
pub use pace::{Pace, Stopwatch};
pub use racl_io::{Device, DeviceFault, Fault, Sink, Source, Totals};
pub use racl_options::{Lines, Options, TableSize};
pub use racl_report::{InterfaceInput, PlacedFault, Saves, remark, status};
pub use run_laws::{
    each_input_has_one_outcome, interfaces_have_one_outcome, live_sessions_have_one_listing,
    told_live_sessions_are_those_of_one_thread, told_sessions_are_those_of_one_thread,
};
pub use runs_end_to_end::run;
pub use shard_run::{ShardRunAsked, run_shard};
