//! A call as it is answered.
use bihash_words::{Change, Reply, Shape};

/// A call as it is answered: its key, the value that was found there, what was decided on it, and the reply.
#[derive(Drop)]
pub struct Event<'k, S: Shape> {
    pub key: &'k S::Key,
    pub found: Option<u64>,
    pub change: Change,
    pub reply: Reply,
}
