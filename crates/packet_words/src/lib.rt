//! Verdicts, addresses and packets as text.
#![tactic(auto)]

mod address_text;
mod frame_at_interface;
mod line_text;
mod packet_text;
mod verdict_text;

pub use address_text::{push_address, push_policy_address};
pub use frame_at_interface::packet_as_seen;
pub use line_text::{has_fields, push_line_flags, push_line_protocol, push_numbered};
pub use packet_text::push_packet;
pub use verdict_text::{kind_of, push_verdict, rule_number};
