//! The ends of a table that is behind a handle, whichever kind it has.
ghost use Rattle.bihash_c.specs.AnyContents.{CloseTold, CountTold, HasCaller, HasPairs, PairTold, RenewTold};

use crate::any_content_callers::AnyContent;
use crate::pair::{Pair, of_five, of_two};
use std::alloc::Global;

impl AnyContent {
    /// Ends the table, whose pairs are there then. Refused, the caller is there.
    pub fn close(&mut self, alloc: Global) -> u32
        requires { HasCaller self.old }
        ensures { CloseTold self.old self.new result }
    {
        match self {
            AnyContent::Two(content) => content.close(alloc),
            AnyContent::LargeTwo(content) => content.close(alloc),
            AnyContent::Five(content) => content.close(alloc),
            AnyContent::LargeFive(content) => content.close(alloc),
        }
    }

    /// Opens the table again: caller 1 is there then. Refused, the caller is there.
    pub fn renew(&mut self, alloc: Global) -> u32
        requires { HasCaller self.old }
        ensures { RenewTold self.old self.new result }
    {
        match self {
            AnyContent::Two(content) => content.renew(alloc),
            AnyContent::LargeTwo(content) => content.renew(alloc),
            AnyContent::Five(content) => content.renew(alloc),
            AnyContent::LargeFive(content) => content.renew(alloc),
        }
    }

    /// How many pairs of the closed table are there.
    pub fn pair_count(&self) -> u64
        requires { HasPairs self.now }
        ensures { CountTold self.now result }
    {
        match self {
            AnyContent::Two(content) => content.pair_count(),
            AnyContent::LargeTwo(content) => content.pair_count(),
            AnyContent::Five(content) => content.pair_count(),
            AnyContent::LargeFive(content) => content.pair_count(),
        }
    }

    /// The pair of the closed table at a place, counted from 0. `None` behind the last.
    pub fn pair(&self, at: u64) -> Option<Pair>
        requires { HasPairs self.now }
        ensures { PairTold self.now at result }
    {
        match self {
            AnyContent::Two(content) => of_two(content.pair(at)),
            AnyContent::LargeTwo(content) => of_two(content.pair(at)),
            AnyContent::Five(content) => of_five(content.pair(at)),
            AnyContent::LargeFive(content) => of_five(content.pair(at)),
        }
    }
}
