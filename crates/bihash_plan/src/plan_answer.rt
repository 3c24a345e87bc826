//! The answer of a plan.

use bihash_words::BlockSize;

/// What a key needs of its bucket's block.
#[derive(Clone, Copy, Debug, PartialEq, Eq)]
pub enum Plan {
    /// The key's pair is at this place, or belongs there.
    InPlace(usize),
    /// The pairs and the new one go into a block of this size.
    Grow(BlockSize),
    /// The bucket holds as many pairs as a bucket can.
    Full,
}
