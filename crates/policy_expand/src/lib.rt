//! Policies as people write them, with named sets, lists and both families at once, and the plain policy that each stands for.
#![tactic(auto)]

mod expansion;
mod file_lines;
mod first_match_laws;
mod icmp_of_both_families;
mod included_name;
mod inclusion;
mod missing_files;
mod plain_text;
mod rows_of_lists;
mod rows_of_rule;
mod set_lists;
mod told_expansion;
mod visible_word;
mod whole_policies;
mod word_lists;
mod word_reading;
mod written_fault;
mod written_line;

pub use expansion::{Expansion, expanded};
pub use file_lines::{PolicyFile, SourceLine};
pub use first_match_laws::{expansions_match_line_by_line, written_lines_decide_in_their_order};
pub use inclusion::included_lines;
pub use missing_files::{MissingFile, missing_file};
pub use told_expansion::{Told, tell_expansion};
pub use visible_word::{Word, WordList};
pub use whole_policies::{Whole, whole_policy};
pub use written_fault::{LineFault, WrittenReason, WrongLine};
