//! Flow keys, sessions, and the decision of a packet on its session.
#![tactic(auto)]

mod flow;
mod flow_end;
mod flow_laws;
mod packet_patch;
mod plain_packet_flow;
mod session;
mod session_expiry;
mod session_flags;
mod session_laws;
mod shown_verdicts;
mod timeouts;
mod verdict;

pub use flow::{Flow, FlowKey, orient};
pub use flow_laws::{
    both_directions_share_a_key, keys_tell_flows, sides_tell_senders, tuples_are_in_range,
};
pub use packet_patch::PacketPatch;
pub use plain_packet_flow::{PlainFlow, plain_flow};
pub use session::Session;
pub use session_expiry::SessionExpiry;
pub use session_laws::{
    computations_meet_definitions, expired_words_are_not_live, last_never_falls,
    last_second_counts, replies_start_nothing, tests_tell_live_sessions, words_tell_sessions,
};
pub use shown_verdicts::{Shown, has_line};
pub use timeouts::Timeouts;
pub use verdict::Verdict;
