//! Why a judge does not go by another one's policy.

/// Why a judge keeps its policy and its timeouts.
#[derive(Clone, Copy, Debug, PartialEq, Eq)]
pub enum TakeFault {
    /// As many judges share the other one's policy as may.
    Memory,
    /// The other one has other timeouts, and some judge over the tables wasn't joined into this one.
    Strangers,
}
