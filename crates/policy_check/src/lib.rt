//! What is wrong with the text of a policy, line by line, and what is right but unlikely.
#![tactic(auto)]

mod captures_of_other_macs;
mod check_laws;
mod frames_of_same_host;
mod kinds_of_other_texts;
mod line_finding;
mod lines_for_expand;
mod policy_checking;
mod port_and_flag_findings;
mod prefix_findings;
mod protocol_findings;
mod reason;
mod remark_kinds;
mod remarks_on_policy;
mod rule_head_findings;
mod shadowing_rules;
mod told_lines;
mod unseen_characters;
mod word_finding;
mod word_readers;

pub use captures_of_other_macs::{ForeignMac, foreign_mac};
pub use check_laws::checks_agree_with_runs;
pub use frames_of_same_host::{OtherMac, other_mac};
pub use kinds_of_other_texts::{TextKind, kind_of_other};
pub use policy_checking::{Checked, Complaint, check_policy};
pub use reason::Reason;
pub use remark_kinds::{Remark, Takers, Unruled};
pub use remarks_on_policy::{no_mac, remarks_on, unruled};
pub use shadowing_rules::takes_all;
pub use told_lines::{Told, tell};
