//! The size of a bucket's block.

/// The size of a block, `2^log2` pages, and whether it is linear.
#[derive(Clone, Copy, Debug, PartialEq, Eq)]
pub struct BlockSize {
    pub log2: u64,
    pub linear: bool,
}
