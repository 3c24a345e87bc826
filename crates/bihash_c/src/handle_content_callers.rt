//! What is behind a handle: made, split, joined, told of another one, asked whether it is alone, and for
//! its stamp.
ghost use Rattle.std.specs.Prelude.{IfSome};
ghost use Rattle.bihash_words.specs.Sizes.{sizes_of, IsSound};
ghost use Rattle.bihash_table.specs.Calls.{TellsLone};
ghost use Rattle.bihash_c.specs.Contents.{AreOfOneTable, Calls, HasCaller, IsFirst, JoinTold, MeetTold, SplitTold, StampTold};

use crate::answer_numbers::{DONE, Stamp, split_refusal, stamp_answer};
use crate::caller_with_table::CallerWithTable;
use bihash_words::Shape;
use std::alloc::Global;
use std::mem;

/// What is behind a handle.
#[derive(Drop)]
pub enum Content<S: Shape> {
    /// Nothing.
    Empty,
    /// A caller with its table.
    Caller(CallerWithTable<S>),
    /// The pairs of a table that was closed.
    Pairs(Vec<(S::Key, u64)>),
}

impl<S: Shape> Content<S> {
    /// Caller 1 of a new table. `None`: memory was refused.
    pub fn first_caller(alloc: Global) -> Option<Content<S>>
        requires { IsSound (sizes_of S.Shape) }
        ensures { IfSome result (IsFirst (sizes_of S.Shape)) }
    {
        match CallerWithTable::first_caller(alloc) {
            Some(caller) => Some(Content::Caller(caller)),
            None => None,
        }
    }

    /// Splits the caller: the new one is at `new`, which is left as it is where that is refused.
    pub fn split(&mut self, alloc: Global, new: &mut Content<S>) -> u32
        requires { HasCaller self.old }
        ensures { SplitTold (sizes_of S.Shape) self.old self.new new.old new.new result }
    {
        let Content::Caller(caller) = mem::replace(self, Content::Empty) else {
            unreachable!();
        };
        match caller.split(alloc) {
            Ok((first, second)) => {
                *self = Content::Caller(first);
                *new = Content::Caller(second);
                DONE
            }
            Err((fault, caller)) => {
                *self = Content::Caller(caller);
                split_refusal(fault)
            }
        }
    }

    /// Gives the caller the numbers and records of another one of its table.
    pub fn join(&mut self, other: Content<S>)
        requires { AreOfOneTable self.old other }
        ensures { JoinTold (sizes_of S.Shape) self.old other self.new }
    {
        let Content::Caller(caller) = mem::replace(self, Content::Empty) else {
            unreachable!();
        };
        let Content::Caller(other) = other else {
            unreachable!();
        };
        *self = Content::Caller(caller.join(other));
    }

    /// Tells two callers of one table what either knows.
    pub fn meet(&mut self, other: &mut Content<S>)
        requires { AreOfOneTable self.old other.old }
        ensures { MeetTold (sizes_of S.Shape) self.old other.old self.new other.new }
    {
        let Content::Caller(caller) = mem::replace(self, Content::Empty) else {
            unreachable!();
        };
        let Content::Caller(met) = mem::replace(other, Content::Empty) else {
            unreachable!();
        };
        let (caller, met) = caller.meet(met);
        *self = Content::Caller(caller);
        *other = Content::Caller(met);
    }

    /// Whether the caller has every number that was made.
    pub fn is_lone(&mut self) -> bool
        requires { HasCaller self.old }
        ensures { Calls self.old self.new (λ s t. TellsLone (sizes_of S.Shape) s t result) }
    {
        let Content::Caller(caller) = self else {
            unreachable!();
        };
        caller.is_lone()
    }

    /// The bucket and the stamp of the caller's last answered call.
    pub fn stamp(&self) -> Stamp
        requires { HasCaller self.now }
        ensures { StampTold self.now result }
    {
        let Content::Caller(caller) = self else {
            unreachable!();
        };
        stamp_answer(caller.stamp())
    }
}
