//! The words of the page store.

/// A word of the page store: how many pages were ever handed out, how many returned blocks of a log2
/// there are, and the first page of one of them, counted from 0.
#[derive(Clone, Copy)]
pub enum PoolWord {
    Used,
    Count(u64),
    Listed(u64, u64),
}
