//! Packets that are written in words, as a person asks what a policy does to them, and the verdicts on them.
#![tactic(auto)]

mod answers;
mod asked_packets;
mod asked_question;
mod carried;
mod compared_answers;
mod end;
mod ends;
mod frame_bytes;
mod frame_parts;
mod judged_packets;
mod question_fault;
mod question_form;
mod question_words;
mod word_numbers;

pub use answers::answer_questions;
pub use asked_question::Ask;
pub use compared_answers::compare_answers;
pub use question_fault::{QuestionFault, answer_status};
pub use question_form::Form;
