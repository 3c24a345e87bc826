//! What is expected of a capture's verdicts.

use session_state::Verdict;

/// The verdicts that are wanted.
#[derive(Clone, Copy, Debug, PartialEq, Eq)]
pub enum Wanted {
    /// Those by which a packet passes.
    Pass,
    /// Those by which one is dropped.
    Drop,
    /// Those of rules that let packets pass.
    PassByRule,
    /// Those of rules that drop them.
    DropByRule,
    /// This one; and where a rule lets packets pass, the one of the same rule that reflects.
    Exactly(Verdict),
}

/// A number in the totals.
#[derive(Clone, Copy, Debug, PartialEq, Eq)]
pub enum Total {
    Packets,
    Passed,
    Dropped,
}

/// What is expected.
#[derive(Clone, Copy, Debug, PartialEq, Eq)]
pub enum Expected {
    /// That the packets from this number to that one are there, and have such verdicts.
    Verdicts(u64, u64, Wanted),
    /// That the total is this.
    InAll(Total, u64),
}

/// What a line of a file expects, and its number, from 1.
#[derive(Clone, Copy, Debug, PartialEq, Eq)]
pub struct Expectation {
    pub line: u64,
    pub expected: Expected,
}

/// What a line says: nothing, or what is expected.
#[derive(Clone, Copy, Debug, PartialEq, Eq)]
pub enum Line {
    Blank,
    Expects(Expected),
}
