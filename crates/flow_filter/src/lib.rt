//! What becomes of a packet: its reading by the rules, the one update that it makes of a session table, and the
//! verdict.
#![tactic(auto)]

mod ageing_laws;
mod filters_made_ready;
mod interface_filters;
mod lazy_patch;
mod packet_flow;
mod prepared_filter;
mod rule_indexes;
mod ruleset;
mod session_update;
mod verdict_by_rules;
mod verdict_laws;
mod verdict_table_laws;

pub use ageing_laws::{
    ageing_filter_keeps_what_is_live, ageing_filter_says_the_same,
    removed_sessions_are_live_for_no_later_packet, removing_ended_sessions_changes_no_verdict,
};
pub use interface_filters::{InterfaceFilter, InterfaceFilters};
pub use lazy_patch::{HasReading, LazyPatch};
pub use packet_flow::{PacketFlow, tuple_copy};
pub use prepared_filter::{Filter, PreparedFilter};
pub use rule_indexes::RuleIndexes;
pub use ruleset::{RuleSearch, Ruleset};
pub use verdict_by_rules::verdict_of_rules;
pub use verdict_laws::{
    each_capture_has_one_list_of_verdicts, each_list_is_judged_once, each_packet_has_one_reading,
    full_buckets_hold_live_sessions, interfaces_are_apart, only_expired_sessions_make_room,
    packets_pass_by_rule_or_session,
};
pub use verdict_table_laws::each_verdict_has_its_row;
