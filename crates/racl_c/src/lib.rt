//! The packet filter for programs in C: a handle is a judge of packets together with its rules and its session tables.
#![tactic(auto)]

mod answer_numbers;
mod box_raw_parts;
mod burst;
mod content_calls;
mod content_closed;
mod content_met_and_swept;
mod content_rules;
mod flow_hash;
mod handle;
mod options;
mod policy_text;
mod racl_calls;
mod racl_calls_on_tables;
mod racl_rule_counts;
mod racl_sessions;
mod session_list_read;
mod stored_session;
mod version;

pub use answer_numbers::{
    Answer, BAD_LINE, BAD_OPTIONS, BY_DEFAULT, CONTENDED, DENY, DONE, ENDED, FULL, MALFORMED,
    MEMORY, Made, NO_PAGES, NOT_IP, NOT_UTF8, NUMBERS, PERMIT, REFLECT, SESSION, SHORT, STRANGERS,
    TOO_MANY, WORN,
};
pub use burst::Descriptor;
pub use content_met_and_swept::Sweep;
pub use flow_hash::Flow;
pub use handle::{Handle, RuleCountsHandle, SessionsHandle, handle_crosses};
pub use options::Options;
pub use policy_text::Checked;
pub use stored_session::{StoredEnd, StoredSession};
