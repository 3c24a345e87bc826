//! Pieces of the packets that are looked for, and what a rule does to one.
use crate::region::Region;

/// Some of the packets that are looked for. The rules before a place match none of them.
#[derive(Clone, Copy)]
pub struct PacketSet {
    pub region: Region,
    pub place: usize,
}

/// What a rule does to the packets of a region.
#[derive(Clone, Copy)]
pub enum Parting {
    /// It matches none.
    Apart,
    /// It matches all.
    Whole,
    /// It matches none of the first part. Both are all of the region.
    Cut(Region, Region),
}

/// The first rule that may match packets of a piece, by its place, and what it does to them. Where there is none, the place
/// is how many rules there are.
#[derive(Clone, Copy)]
pub struct Meeting {
    pub place: usize,
    pub parting: Parting,
}
