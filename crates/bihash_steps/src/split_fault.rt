//! Why a caller could not be split.

/// Why a caller could not be split.
#[derive(Clone, Copy, Debug, PartialEq, Eq)]
pub enum SplitFault {
    /// Memory was refused.
    Memory,
    /// As many callers were made as a table may have.
    Numbers,
    /// Another caller took a number in the same moment.
    Contended,
}
