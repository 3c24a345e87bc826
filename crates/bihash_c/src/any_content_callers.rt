//! What is behind a handle, whichever kind its table has: made, split, joined, told of another one, asked whether it is
//! alone, and for its stamp.
ghost use Rattle.std.specs.Prelude.{IfSome};
ghost use Rattle.bihash_table.specs.Calls.{TellsLone};
ghost use Rattle.bihash_c.specs.AnyContents.{AreOfOneTable, Calls, HasCaller, IsFirst, JoinTold, MeetTold, SplitTold, StampTold};
ghost use Rattle.bihash_c.specs.Kinds.{sizes_in};

use crate::answer_numbers::{DONE, Stamp};
use crate::handle_content_callers::Content;
use crate::options::Kind;
use bihash_words::{
    LargeV4, LargeV6, ShapeV4, ShapeV6, flow_shapes_are_sound, large_shapes_are_sound,
};
use std::alloc::Global;

/// What is behind a handle of a table of any kind.
#[derive(Drop)]
pub enum AnyContent {
    Two(Content<ShapeV4>),
    LargeTwo(Content<LargeV4>),
    Five(Content<ShapeV6>),
    LargeFive(Content<LargeV6>),
}

impl AnyContent {
    /// Caller 1 of a new table of this kind. `None`: memory was refused.
    pub fn first_caller(alloc: Global, kind: Kind) -> Option<AnyContent>
        ensures { IfSome result (IsFirst kind) }
    {
        flow_shapes_are_sound();
        large_shapes_are_sound();
        match kind {
            Kind::Two => Some(AnyContent::Two(Content::first_caller(alloc)?)),
            Kind::LargeTwo => Some(AnyContent::LargeTwo(Content::first_caller(alloc)?)),
            Kind::Five => Some(AnyContent::Five(Content::first_caller(alloc)?)),
            Kind::LargeFive => Some(AnyContent::LargeFive(Content::first_caller(alloc)?)),
        }
    }

    /// Splits the caller: the new one is at `new`, which is left as it is where that is refused.
    pub fn split(&mut self, alloc: Global, new: &mut AnyContent) -> u32
        requires { HasCaller self.old }
        ensures { SplitTold self.old self.new new.old new.new result }
    {
        match self {
            AnyContent::Two(content) => {
                let mut fresh = Content::Empty;
                let answer = content.split(alloc, &mut fresh);
                if answer == DONE {
                    *new = AnyContent::Two(fresh);
                }
                answer
            }
            AnyContent::LargeTwo(content) => {
                let mut fresh = Content::Empty;
                let answer = content.split(alloc, &mut fresh);
                if answer == DONE {
                    *new = AnyContent::LargeTwo(fresh);
                }
                answer
            }
            AnyContent::Five(content) => {
                let mut fresh = Content::Empty;
                let answer = content.split(alloc, &mut fresh);
                if answer == DONE {
                    *new = AnyContent::Five(fresh);
                }
                answer
            }
            AnyContent::LargeFive(content) => {
                let mut fresh = Content::Empty;
                let answer = content.split(alloc, &mut fresh);
                if answer == DONE {
                    *new = AnyContent::LargeFive(fresh);
                }
                answer
            }
        }
    }

    /// Gives the caller the numbers and records of another one of its table.
    pub fn join(&mut self, other: AnyContent)
        requires { AreOfOneTable self.old other }
        ensures { JoinTold self.old other self.new }
    {
        match self {
            AnyContent::Two(content) => {
                let AnyContent::Two(other) = other else {
                    unreachable!();
                };
                content.join(other);
            }
            AnyContent::LargeTwo(content) => {
                let AnyContent::LargeTwo(other) = other else {
                    unreachable!();
                };
                content.join(other);
            }
            AnyContent::Five(content) => {
                let AnyContent::Five(other) = other else {
                    unreachable!();
                };
                content.join(other);
            }
            AnyContent::LargeFive(content) => {
                let AnyContent::LargeFive(other) = other else {
                    unreachable!();
                };
                content.join(other);
            }
        }
    }

    /// Tells two callers of one table what either knows.
    pub fn meet(&mut self, other: &mut AnyContent)
        requires { AreOfOneTable self.old other.old }
        ensures { MeetTold self.old other.old self.new other.new }
    {
        match self {
            AnyContent::Two(content) => {
                let AnyContent::Two(other) = other else {
                    unreachable!();
                };
                content.meet(other);
            }
            AnyContent::LargeTwo(content) => {
                let AnyContent::LargeTwo(other) = other else {
                    unreachable!();
                };
                content.meet(other);
            }
            AnyContent::Five(content) => {
                let AnyContent::Five(other) = other else {
                    unreachable!();
                };
                content.meet(other);
            }
            AnyContent::LargeFive(content) => {
                let AnyContent::LargeFive(other) = other else {
                    unreachable!();
                };
                content.meet(other);
            }
        }
    }

    /// Whether the caller has every number that was made.
    pub fn is_lone(&mut self) -> bool
        requires { HasCaller self.old }
        ensures { Calls self.old self.new (λ kind s t. TellsLone (sizes_in kind) s t result) }
    {
        match self {
            AnyContent::Two(content) => content.is_lone(),
            AnyContent::LargeTwo(content) => content.is_lone(),
            AnyContent::Five(content) => content.is_lone(),
            AnyContent::LargeFive(content) => content.is_lone(),
        }
    }

    /// The bucket and the stamp of the caller's last answered call.
    pub fn stamp(&self) -> Stamp
        requires { HasCaller self.now }
        ensures { StampTold self.now result }
    {
        match self {
            AnyContent::Two(content) => content.stamp(),
            AnyContent::LargeTwo(content) => content.stamp(),
            AnyContent::Five(content) => content.stamp(),
            AnyContent::LargeFive(content) => content.stamp(),
        }
    }
}
