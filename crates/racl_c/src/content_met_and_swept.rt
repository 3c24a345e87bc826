//! What is behind a handle: told of another one, asked whether it is alone, swept, and asked for its unused pages.
ghost use Rattle.std.specs.Prelude.{◌≡◌};
ghost use Rattle.flow_filter.specs.OneThread.{layout_of};
ghost use Rattle.racl_c.specs.Contents.{AreOfOneTable, Calls, HasJudge};
ghost use Rattle.racl_c.specs.Meetings.{LoneTold, MeetTold, SweepTold, UnusedTold, sweep_told};
ghost use Rattle.racl_c.specs.Answers.{one_if};

use crate::answer_numbers::{CONTENDED, DONE};
use crate::content_calls::Content;
use bihash_words::{LargeV4, LargeV6, Shape, ShapeV4, ShapeV6};
use flow_judge::Swept;
use packet_view::Family;
use std::mem;

/// How far a sweep came.
#[repr(C)]
#[derive(Clone, Copy, Debug, PartialEq, Eq)]
pub struct Sweep {
    pub kind: u32,
    pub next: u64,
    pub went: u64,
}

/// What C is told of a judge that is alone over its tables, or isn't.
pub fn lone_answer(is_lone: bool) -> u32
    ensures { result ≡ one_if is_lone }
{
    u32::from(is_lone)
}

/// What C is told of a sweep.
pub fn sweep_answer(swept: Swept) -> Sweep
    ensures { result ≡ sweep_told swept }
{
    Sweep {
        kind: if swept.met { CONTENDED } else { DONE },
        next: swept.next,
        went: swept.went,
    }
}

impl Content {
    /// Tells two judges over the same tables what either knows.
    pub fn meet(&mut self, other: &mut Content)
        requires { AreOfOneTable self.old other.old }
        ensures { MeetTold (layout_of ⟦<ShapeV4 as Shape>⟧ ⟦<ShapeV6 as Shape>⟧)
            (layout_of ⟦<LargeV4 as Shape>⟧ ⟦<LargeV6 as Shape>⟧) self.old other.old self.new other.new }
    {
        match mem::replace(self, Content::Empty) {
            Content::Standard(judge) => {
                let Content::Standard(met) = mem::replace(other, Content::Empty) else {
                    unreachable!();
                };
                let (judge, met) = judge.meet(met);
                *self = Content::Standard(judge);
                *other = Content::Standard(met);
            }
            Content::Large(judge) => {
                let Content::Large(met) = mem::replace(other, Content::Empty) else {
                    unreachable!();
                };
                let (judge, met) = judge.meet(met);
                *self = Content::Large(judge);
                *other = Content::Large(met);
            }
            _ => unreachable!(),
        }
    }

    /// Whether the judge is alone over its tables.
    pub fn is_lone(&mut self) -> u32
        requires { HasJudge self.old }
        ensures { Calls self.old self.new (LoneTold (layout_of ⟦<ShapeV4 as Shape>⟧ ⟦<ShapeV6 as Shape>⟧) result)
            (LoneTold (layout_of ⟦<LargeV4 as Shape>⟧ ⟦<LargeV6 as Shape>⟧) result) }
    {
        match self {
            Content::Standard(judge) => lone_answer(judge.is_lone()),
            Content::Large(judge) => lone_answer(judge.is_lone()),
            _ => unreachable!(),
        }
    }

    /// Looks for sessions that have ended in buckets of this family, one after the other.
    pub fn sweep(&mut self, family: Family, from: u64, to: u64, moment: u32, most: u64) -> Sweep
        requires { HasJudge self.old }
        ensures { Calls self.old self.new
            (SweepTold ⟦<ShapeV4 as Shape>⟧ ⟦<ShapeV6 as Shape>⟧ family moment from to most result)
            (SweepTold ⟦<LargeV4 as Shape>⟧ ⟦<LargeV6 as Shape>⟧ family moment from to most result) }
    {
        match self {
            Content::Standard(judge) => sweep_answer(judge.sweep(family, from, to, moment, most)),
            Content::Large(judge) => sweep_answer(judge.sweep(family, from, to, moment, most)),
            _ => unreachable!(),
        }
    }

    /// How many pages of this family's table were never handed out.
    pub fn unused_pages(&self, family: Family) -> u64
        requires { HasJudge self.now }
        ensures { UnusedTold (layout_of ⟦<ShapeV4 as Shape>⟧ ⟦<ShapeV6 as Shape>⟧)
            (layout_of ⟦<LargeV4 as Shape>⟧ ⟦<LargeV6 as Shape>⟧) family self.now result }
    {
        match self {
            Content::Standard(judge) => judge.unused_pages(family),
            Content::Large(judge) => judge.unused_pages(family),
            _ => unreachable!(),
        }
    }
}
