//! What is asked about packets.

/// What is asked about packets.
#[derive(Clone, Copy)]
pub struct Ask<'a> {
    /// Whether lines are explained.
    pub explained: bool,
    /// The name of the file that says what is expected of the verdicts, where one is named.
    pub expected: Option<&'a str>,
    /// The name of the policy's file.
    pub policy: &'a str,
    /// A packet's words each.
    pub packets: &'a [&'a str],
}
