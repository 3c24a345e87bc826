//! The rules of a filter: their text, and which of them decides a packet.
#![tactic(auto)]

mod address;
mod first_match_laws;
mod interface_sections;
mod line_words;
mod mac;
mod number_parsing;
mod policy;
mod policy_draft;
mod policy_line;
mod policy_line_words;
mod policy_reading;
mod policy_text_laws;
mod prefix;
mod protocol_parts;
mod ranges_and_flags;
mod reader_laws;
mod rule;
mod rule_match;
mod width_and_icmp_of_family;
mod word_laws;

pub use address::address_of;
pub use first_match_laws::rules_decide_each_packet;
pub use line_words::{before_comment, cut_at, is_blank, is_end, next_word, word_start};
pub use mac::mac_of;
pub use number_parsing::{number_of, number_up_to, octet_of};
pub use policy::{Policy, PolicyFault, Section};
pub use policy_draft::Draft;
pub use policy_line::{Line, line_of};
pub use policy_line_words::{action_of_word, direction_of_word, family_of_word, interface_of_word};
pub use policy_reading::{empty_draft, read_policy, read_policy_line};
pub use policy_text_laws::one_reading;
pub use prefix::prefix_of;
pub use protocol_parts::{Traffic, protocol_of, traffic_of};
pub use ranges_and_flags::{flags_of_word, range_of};
pub use reader_laws::{lines_are_read_as_the_grammar_says, policies_grow_as_the_grammar_says};
pub use rule::{Action, Rule};
pub use rule_match::{first_match, has_prefix, is_match};
pub use width_and_icmp_of_family::{icmp_number, width_of};
pub use word_laws::{traffic_is_read_as_the_grammar_says, words_are_read_as_the_grammar_says};
