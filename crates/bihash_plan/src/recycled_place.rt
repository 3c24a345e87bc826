//! The answer of a look for a pair that may go.

/// Where the new pair takes the place of another, and whether any place of the block may hold any key then.
#[derive(Clone, Copy)]
pub struct Recycle {
    pub place: usize,
    pub linear: bool,
}
