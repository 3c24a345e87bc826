//! What a call's entry bears of recycling, as proofs and contracts see it. It is never made.
use std::collections::LinkedList;

/// The words that a call counted as expired values, and the words of the key that it removed for its own.
pub struct Recycling {
    pub expired: LinkedList<u64>,
    pub removed: Option<LinkedList<u64>>,
}
