//! Verdicts beside what a file expects of them, and beside those of another policy: each difference is told.
#![tactic(auto)]

mod change_lines;
mod change_report;
mod change_totals;
mod changed_packets;
mod changes_told;
mod compared_at_once;
mod expectation;
mod expectation_fault;
mod expectation_file;
mod expectation_line;
mod met_line;
mod numbers;
mod rule_of_verdict;
mod unmet;
mod unmet_lines;
mod verdict_words;
mod wanted_words;

pub use change_lines::{Change, PolicyPair};
pub use change_report::report_changes;
pub use change_totals::{ChangeTotals, status_of_changes};
pub use compared_at_once::{is_met, write_compared};
pub use expectation::{Expectation, Expected, Total, Wanted};
pub use expectation_fault::{ExpectationFault, ExpectationReason};
pub use expectation_file::read_expectations;
pub use met_line::{status_of_expected, write_met};
pub use unmet::{any_open, any_unmet};
pub use unmet_lines::UnmetLines;
