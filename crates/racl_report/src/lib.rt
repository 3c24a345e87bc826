//! What a run tells of an input when its packets were judged: the report, and how the program ends.
#![tactic(auto)]

mod asked_report;
mod interface_captures;
mod message_texts;
mod program_ending;
mod saved_packets;
mod text_behind_totals;

pub use asked_report::view_behind;
pub use interface_captures::{InterfaceInput, PlacedFault, is_interface_seen, told_of_interfaces};
pub use message_texts::{
    Ending, Frames, FramesRemark, Hint, KindRemark, Message, Shortage, Unopened, shown_name,
};
pub use program_ending::{
    ending, failure_ending, frames, hint, remark, shortage, status, words_ending,
};
pub use saved_packets::Saves;
pub use text_behind_totals::{Behind, behind_totals, write_behind};
