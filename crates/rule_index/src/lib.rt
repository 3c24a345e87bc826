//! Rules prepared for many packets: which rule decides a packet, without a look at each of them.
//!
//! Bit vectors by interval (Lakshman and Stiliadis, SIGCOMM 1998): for each number of a packet that rules are about, the
//! numbers fall into intervals within which the same rules may match, and each interval has a row of bits, one for each
//! rule. Of more than some thousand intervals those that follow each other are taken together, and have the bits of all their
//! rules. Rows in turn share the words in which they are alike. A packet's rows are intersected, and the first rule of the
//! intersection that matches decides. The rows only leave out rules that can't match: each rule that they leave is asked
//! itself.
#![tactic(auto)]

mod bit_rows;
mod column;
mod first_candidate;
mod flag_rows;
mod index;
mod numbered_row;
mod numbered_words;
mod ranges_of_rules;

pub use index::{RuleIndex, worth_preparing};
