//! What a run had and what came of it, and how its packets are told.
use crate::rule_table::RuleTable;
use acl_policy::Policy;
use packet_view::Packets;
use racl_io::Captured;
use session_state::{Shown, Verdict};

/// A run: its policy, which the text says, the packets of its captures with their verdicts, and which of them are shown.
#[derive(Clone, Copy)]
pub struct Run<'a> {
    pub policy: &'a Policy,
    pub text: &'a [u8],
    pub packets: Packets<'a>,
    pub verdicts: &'a [Verdict],
    pub captures: &'a [Captured],
    pub shown: Shown,
}

/// How packets are told: which of them, and under which policy, whose rules stand in the table.
#[derive(Clone, Copy)]
pub struct Telling<'a, 'b> {
    pub shown: Shown,
    pub policy: &'a Policy,
    pub table: &'b RuleTable<'a>,
}
