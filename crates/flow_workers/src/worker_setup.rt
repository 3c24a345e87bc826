//! What workers share.
use crate::gate::Gate;
use crate::session_tables::Tables;
use bihash_words::Shape;
use flow_dealing::{Dealer, Dealing};
use flow_filter::InterfaceFilters;
use std::sync::Wait;

/// What workers share, whatever packets they judge.
#[derive(Drop)]
pub struct Setup<'t, 'f, A: Shape, B: Shape, R: Wait, G: Gate> {
    pub rt: &'t R,
    pub gate: &'t G,
    pub filter: &'t InterfaceFilters<'f>,
    pub tables: &'t Tables<A, B>,
    pub dealing: Dealing,
    /// How many workers there are.
    pub workers: usize,
    /// From how many packets on that are judged at once each worker gets a thread of its own, where there are several.
    pub many: usize,
    /// Whether they remove sessions that have ended, between their packets.
    pub ages: bool,
}

impl<'t, 'f, A: Shape, B: Shape, R: Wait, G: Gate> Setup<'t, 'f, A, B, R, G> {
    ghost use Rattle.std.specs.Prelude.{◌≡◌, ◌==◌};
    ghost use Rattle.flow_workers.specs.inner.Jobs.{dealer_of};

    /// Whether one worker has all packets.
    pub fn is_alone(&self) -> bool
        ensures { result ≡ (self.now.workers == 1) }
    {
        self.workers == 1
    }

    /// What packets are dealt by.
    pub fn dealer(&self) -> Dealer
        ensures { result ≡ dealer_of self.now }
    {
        Dealer {
            dealing: self.dealing,
            workers: self.workers,
        }
    }

    /// The same once more, for another worker.
    pub fn again(&self) -> Setup<'t, 'f, A, B, R, G>
        ensures { result ≡ self.now }
    {
        Setup {
            rt: self.rt,
            gate: self.gate,
            filter: self.filter,
            tables: self.tables,
            dealing: self.dealing,
            workers: self.workers,
            many: self.many,
            ages: self.ages,
        }
    }
}
