//! What is told of a run beside its verdicts: what its packets are, which rules decided them, which sessions it left, and the
//! chosen packets as a capture.
#![tactic(auto)]

mod byte_batch;
mod capture_of_chosen;
mod chosen_packets;
mod counting_reasons;
mod deciding_rule;
mod explained_line;
mod explained_line_and_json_laws;
mod explained_packet_line;
mod flow_key;
mod hit_counts;
mod hits_as_text_and_json;
mod json_fields;
mod json_objects;
mod json_report;
mod packet_entry;
mod place_of_rule;
mod rule_lines_by_place;
mod rule_numbering;
mod rule_table;
mod rule_texts_in_policy;
mod run_and_verdicts;
mod session_counts;
mod sessions_as_text_and_json;
mod shard_lines;
mod stored_flow;
mod writing_explained_lines;

pub use capture_of_chosen::{chosen_packets_are_a_capture, write_chosen_records};
pub use chosen_packets::Chosen;
pub use explained_line_and_json_laws::{explained_lines_begin_as_the_report, objects_read_back};
pub use flow_key::keys_tell_their_flows;
pub use hit_counts::{HitCounts, latest_second};
pub use hits_as_text_and_json::{counted_hits_text, hits_text};
pub use json_report::ObjectLines;
pub use rule_lines_by_place::{line_of, rule_table_by_place};
pub use rule_numbering::{RuleLine, RuleName, numbered_rules};
pub use rule_table::RuleTable;
pub use rule_texts_in_policy::text_at;
pub use run_and_verdicts::Run;
pub use session_counts::{SessionCounts, StoredPairs, count_sessions, live_sessions};
pub use sessions_as_text_and_json::{TextOrJson, sessions_text};
pub use shard_lines::{ShardOf, shard_text};
pub use writing_explained_lines::ExplainedLines;
