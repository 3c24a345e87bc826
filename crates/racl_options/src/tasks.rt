//! What the words of the command line ask of a command, as types.

/// Packets in words, of which it is asked what becomes of them.
#[derive(Drop)]
pub struct AskedPackets<'a> {
    /// Whether lines are explained.
    pub explained: bool,
    /// The name of the file that says what is expected of the verdicts, where one is named.
    pub expected: Option<&'a str>,
    /// The name of the policy's file.
    pub policy: &'a str,
    /// A packet's words each.
    pub packets: Vec<&'a str>,
}

/// The names of the file of a policy, of that of the one that is to take its place, and of a capture's. The name `-`, which one
/// of them at most has, is standard input.
#[derive(Clone, Copy, Debug, PartialEq, Eq)]
pub struct DiffFiles<'a> {
    pub before: &'a str,
    pub after: &'a str,
    pub capture: &'a str,
    /// Whether sessions that have ended are removed.
    pub ages: bool,
}

/// The names of the file of a policy, and of that of the one that is to take its place. One of them at most is `-`.
#[derive(Clone, Copy, Debug, PartialEq, Eq)]
pub struct CompareFiles<'a> {
    pub before: &'a str,
    pub after: &'a str,
}

/// What a command is asked to do.
#[derive(Drop)]
pub enum Task<'a> {
    /// The check of the policy in the file of this name.
    Check(&'a str),
    /// The plain policy of the one in the file of this name.
    Expand(&'a str),
    Ask(AskedPackets<'a>),
    Diff(DiffFiles<'a>),
    Compare(CompareFiles<'a>),
}
