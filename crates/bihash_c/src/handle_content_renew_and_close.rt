//! The ends of a table that is behind a handle: it is closed, whose pairs are there then, or renewed.
ghost use Rattle.std.specs.Prelude.{◌≡◌};
ghost use Rattle.bihash_words.specs.Sizes.{sizes_of};
ghost use Rattle.bihash_c.specs.Answers.{end_number};
ghost use Rattle.bihash_c.specs.Contents.{CloseTold, CountTold, HasCaller, HasPairs, PairTold, RenewTold};
ghost use Rattle.bihash_c.specs.declared.handle_content_callers.Content.TheVariants.{Caller};

use crate::answer_numbers::{DONE, end_refusal};
use crate::caller_with_table::CallerWithTable;
use crate::end_of_table::EndFault;
use crate::handle_content_callers::Content;
use bihash_words::Shape;
use std::alloc::Global;
use std::mem;

impl<S: Shape> Content<S> {
    /// Ends the table, whose pairs are there then. Refused, the caller is there.
    pub fn close(&mut self, alloc: Global) -> u32
        requires { HasCaller self.old }
        ensures { CloseTold ⟦<S as Shape>⟧ self.old self.new result }
    {
        let Content::Caller(caller) = mem::replace(self, Content::Empty) else {
            unreachable!();
        };
        match caller.close(alloc) {
            Ok(pairs) => {
                *self = Content::Pairs(pairs);
                DONE
            }
            Err(refused) => self.stay(refused),
        }
    }

    /// Opens the table again: caller 1 is there then. Refused, the caller is there.
    pub fn renew(&mut self, alloc: Global) -> u32
        requires { HasCaller self.old }
        ensures { RenewTold (sizes_of S.Shape) self.old self.new result }
    {
        let Content::Caller(caller) = mem::replace(self, Content::Empty) else {
            unreachable!();
        };
        match caller.renew(alloc) {
            Ok(caller) => {
                *self = Content::Caller(caller);
                DONE
            }
            Err(refused) => self.stay(refused),
        }
    }

    // The caller of a table that did not end is there again, and why is told.
    fn stay(&mut self, refused: (EndFault, CallerWithTable<S>)) -> u32
        ensures there { self.new ≡ Caller refused.1 }
        ensures told { result ≡ end_number refused.0 }
    {
        let (fault, caller) = refused;
        *self = Content::Caller(caller);
        end_refusal(fault)
    }

    /// How many pairs of the closed table are there.
    pub fn pair_count(&self) -> u64
        requires { HasPairs self.now }
        ensures { CountTold self.now result }
    {
        let Content::Pairs(pairs) = self else {
            unreachable!();
        };
        pairs.len() as u64
    }

    /// The pair of the closed table at a place, counted from 0. `None` behind the last.
    pub fn pair(&self, at: u64) -> Option<(S::Key, u64)>
        requires { HasPairs self.now }
        ensures { PairTold self.now at result }
    {
        let Content::Pairs(pairs) = self else {
            unreachable!();
        };
        match pairs.get(at as usize) {
            Some(pair) => Some(*pair),
            None => None,
        }
    }
}
