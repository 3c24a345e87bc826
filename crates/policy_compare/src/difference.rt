//! What is told of two policies, and the words that ask for it.

use acl_policy::Action;
use packet_view::{Direction, Tuple};

/// What decides packets of a direction at an interface by a policy, and by the one that is to take its place: a rule, by its
/// number from 1, and its action; None where no rule matches.
#[derive(Clone, Copy, Debug, PartialEq, Eq)]
pub struct Pair {
    pub interface: u8,
    pub direction: Direction,
    pub before: Option<(u64, Action)>,
    pub after: Option<(u64, Action)>,
}

/// Deciders that let different things become of a packet. The packet is an example; None where it isn't known whether there is
/// one.
#[derive(Clone, Copy, Debug, PartialEq, Eq)]
pub struct Difference {
    pub pair: Pair,
    pub packet: Option<Tuple>,
}

/// What two policies decide differently.
#[derive(Drop)]
pub struct Comparison {
    /// The interfaces where their own addresses differ.
    pub interfaces: Vec<u8>,
    pub differences: Vec<Difference>,
}
