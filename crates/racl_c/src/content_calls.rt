//! The calls on what is behind a handle, answered as C is told.
ghost use Rattle.std.specs.Prelude.{◌≡◌, ◌≢◌, ◌⊎◌, IfErr, IfOk};
ghost use Rattle.acl_policy.specs.Policies.{IsPolicyFault};
ghost use Rattle.acl_policy.specs.declared.policy.PolicyFault.TheVariants.{Memory};
ghost use Rattle.flow_filter.specs.OneThread.{layout_of};
ghost use Rattle.racl_c.specs.Bursts.{BurstTold};
ghost use Rattle.racl_c.specs.Contents.{AgedTold, AreOfOneTable, Calls, CountsTold, HasJudge, IsNewBy, JoinTold, JudgeTold, RenewTold, RuleTold, SplitTold, TakeTold};

use crate::answer_numbers::{
    Answer, DONE, Made, end_refusal, ended_answer, fault_answer, judged_answer, split_refusal,
    take_refusal, was_done,
};
use crate::burst::{Descriptor, judge_burst};
use crate::options::Choice;
use crate::session_list_read::SessionList;
use acl_policy::PolicyFault;
use bihash_words::{
    LargeV4, LargeV6, Shape, ShapeV4, ShapeV6, flow_shapes_are_sound, large_shapes_are_sound,
};
use flow_judge::{Counts, Judge, RuleCounts};
use packet_view::Family;
use std::alloc::Global;
use std::mem;

/// What is behind a handle.
#[derive(Drop)]
pub enum Content {
    /// Nothing.
    Empty,
    /// A judge over standard tables.
    Standard(Judge<ShapeV4, ShapeV6>),
    /// A judge over large tables.
    Large(Judge<LargeV4, LargeV6>),
    /// The sessions of a table that was closed.
    Sessions(SessionList),
    /// Counts by rule.
    Rules(RuleCounts),
}

// Gives a judge the policy and the timeouts of another one.
fn take_policy_of<A: Shape, B: Shape>(judge: &mut Judge<A, B>, other: &Content) -> u32
    requires { HasJudge other.now }
    ensures { TakeTold (layout_of ⟦<A as Shape>⟧ ⟦<B as Shape>⟧) other.now result judge.old judge.new }
{
    match other {
        Content::Standard(other) => match judge.take_policy(other) {
            Ok(()) => DONE,
            Err(fault) => take_refusal(fault),
        },
        Content::Large(other) => match judge.take_policy(other) {
            Ok(()) => DONE,
            Err(fault) => take_refusal(fault),
        },
        _ => unreachable!(),
    }
}

impl Content {
    /// A judge over new tables of the size that was chosen, by the policy of this text.
    pub fn new(alloc: Global, text: &[u8], choice: &Choice) -> Result<Content, PolicyFault>
        ensures made { IfOk result (IsNewBy (layout_of ⟦<ShapeV4 as Shape>⟧ ⟦<ShapeV6 as Shape>⟧)
            (layout_of ⟦<LargeV4 as Shape>⟧ ⟦<LargeV6 as Shape>⟧) text.now choice.now) }
        ensures fault { IfErr result (λ fault. fault ≢ Memory → IsPolicyFault text.now fault) }
    {
        flow_shapes_are_sound();
        large_shapes_are_sound();
        if choice.is_large {
            return match Judge::new(alloc, text, choice.times) {
                Ok(judge) => Ok(Content::Large(judge)),
                Err(fault) => Err(fault),
            };
        }
        match Judge::new(alloc, text, choice.times) {
            Ok(judge) => Ok(Content::Standard(judge)),
            Err(fault) => Err(fault),
        }
    }

    /// One try of judging a frame.
    #[inline(always)]
    pub fn judge(&mut self, interface: u8, moment: u32, frame: &[u8]) -> Answer
        requires { HasJudge self.old }
        ensures { Calls self.old self.new
            (JudgeTold ⟦<ShapeV4 as Shape>⟧ ⟦<ShapeV6 as Shape>⟧
            (record { interface = interface; moment = moment; micros = 0; frame = frame.now }) result)
            (JudgeTold ⟦<LargeV4 as Shape>⟧ ⟦<LargeV6 as Shape>⟧
            (record { interface = interface; moment = moment; micros = 0; frame = frame.now }) result) }
    {
        match self {
            Content::Standard(judge) => judged_answer(judge.judge(interface, moment, frame)),
            Content::Large(judge) => judged_answer(judge.judge(interface, moment, frame)),
            _ => unreachable!(),
        }
    }

    /// Judges the frames of a burst in their order, and says how many were answered before one met another judge.
    pub fn judge_burst(
        &mut self,
        memory: &[u8],
        descriptors: &[Descriptor],
        answers: &mut [Answer],
    ) -> usize
        requires { HasJudge self.old }
        ensures { Calls self.old self.new
            (BurstTold ⟦<ShapeV4 as Shape>⟧ ⟦<ShapeV6 as Shape>⟧ memory.now descriptors.now answers.old answers.new result)
            (BurstTold ⟦<LargeV4 as Shape>⟧ ⟦<LargeV6 as Shape>⟧ memory.now descriptors.now answers.old answers.new result) }
    {
        match self {
            Content::Standard(judge) => judge_burst(judge, memory, descriptors, answers),
            Content::Large(judge) => judge_burst(judge, memory, descriptors, answers),
            _ => unreachable!(),
        }
    }

    /// Judges by the policy of this text from now on.
    pub fn set_policy(&mut self, alloc: Global, text: &[u8]) -> Made
        requires { HasJudge self.old }
        ensures { Calls self.old self.new (RuleTold text.now result) (RuleTold text.now result) }
    {
        let set = match self {
            Content::Standard(judge) => judge.set_policy(alloc, text),
            Content::Large(judge) => judge.set_policy(alloc, text),
            _ => unreachable!(),
        };
        match set {
            Ok(()) => was_done(),
            Err(fault) => fault_answer(fault),
        }
    }

    /// Judges by the policy and timeouts of another judge from now on.
    pub fn take_policy(&mut self, other: &Content) -> u32
        requires judge { HasJudge self.old }
        requires other { HasJudge other.now }
        ensures { Calls self.old self.new (TakeTold (layout_of ⟦<ShapeV4 as Shape>⟧ ⟦<ShapeV6 as Shape>⟧) other.now result)
            (TakeTold (layout_of ⟦<LargeV4 as Shape>⟧ ⟦<LargeV6 as Shape>⟧) other.now result) }
    {
        match self {
            Content::Standard(judge) => take_policy_of(judge, other),
            Content::Large(judge) => take_policy_of(judge, other),
            _ => unreachable!(),
        }
    }

    /// How many frames were given each kind of verdict.
    pub fn counts(&self) -> Counts
        requires { HasJudge self.now }
        ensures { CountsTold self.now result }
    {
        match self {
            Content::Standard(judge) => judge.counts(),
            Content::Large(judge) => judge.counts(),
            _ => unreachable!(),
        }
    }

    /// One try of a look at a bucket of this family for a session that has ended.
    pub fn expire(&mut self, family: Family, bucket: u64, moment: u32) -> u32
        requires { HasJudge self.old }
        ensures { Calls self.old self.new
            (AgedTold ⟦<ShapeV4 as Shape>⟧ ⟦<ShapeV6 as Shape>⟧ family bucket moment result)
            (AgedTold ⟦<LargeV4 as Shape>⟧ ⟦<LargeV6 as Shape>⟧ family bucket moment result) }
    {
        match self {
            Content::Standard(judge) => ended_answer(judge.expire(family, bucket, moment)),
            Content::Large(judge) => ended_answer(judge.expire(family, bucket, moment)),
            _ => unreachable!(),
        }
    }

    /// Splits the judge: the new one is at `new`, which is left as it is where that is refused.
    pub fn split(&mut self, alloc: Global, new: &mut Content) -> u32
        requires { HasJudge self.old }
        ensures { SplitTold (layout_of ⟦<ShapeV4 as Shape>⟧ ⟦<ShapeV6 as Shape>⟧)
            (layout_of ⟦<LargeV4 as Shape>⟧ ⟦<LargeV6 as Shape>⟧) self.old self.new new.old new.new result }
    {
        match mem::replace(self, Content::Empty) {
            Content::Standard(judge) => match judge.split(alloc) {
                Ok((first, second)) => {
                    *self = Content::Standard(first);
                    *new = Content::Standard(second);
                    DONE
                }
                Err((fault, judge)) => {
                    *self = Content::Standard(judge);
                    split_refusal(fault)
                }
            },
            Content::Large(judge) => match judge.split(alloc) {
                Ok((first, second)) => {
                    *self = Content::Large(first);
                    *new = Content::Large(second);
                    DONE
                }
                Err((fault, judge)) => {
                    *self = Content::Large(judge);
                    split_refusal(fault)
                }
            },
            _ => unreachable!(),
        }
    }

    /// Gives the judge the callers of another one over the same tables.
    pub fn join(&mut self, other: Content)
        requires { AreOfOneTable self.old other }
        ensures { JoinTold (layout_of ⟦<ShapeV4 as Shape>⟧ ⟦<ShapeV6 as Shape>⟧)
            (layout_of ⟦<LargeV4 as Shape>⟧ ⟦<LargeV6 as Shape>⟧) self.old other self.new }
    {
        match mem::replace(self, Content::Empty) {
            Content::Standard(judge) => {
                let Content::Standard(other) = other else {
                    unreachable!();
                };
                *self = Content::Standard(judge.join(other));
            }
            Content::Large(judge) => {
                let Content::Large(other) = other else {
                    unreachable!();
                };
                *self = Content::Large(judge.join(other));
            }
            _ => unreachable!(),
        }
    }

    /// Opens the table of this family again.
    pub fn renew(&mut self, alloc: Global, family: Family) -> u32
        requires { HasJudge self.old }
        ensures { Calls self.old self.new (RenewTold ⟦<ShapeV4 as Shape>⟧ ⟦<ShapeV6 as Shape>⟧ family result)
            (RenewTold ⟦<LargeV4 as Shape>⟧ ⟦<LargeV6 as Shape>⟧ family result) }
    {
        match mem::replace(self, Content::Empty) {
            Content::Standard(judge) => match judge.renew(alloc, family) {
                Ok(judge) => {
                    *self = Content::Standard(judge);
                    DONE
                }
                Err((fault, judge)) => {
                    *self = Content::Standard(judge);
                    end_refusal(fault)
                }
            },
            Content::Large(judge) => match judge.renew(alloc, family) {
                Ok(judge) => {
                    *self = Content::Large(judge);
                    DONE
                }
                Err((fault, judge)) => {
                    *self = Content::Large(judge);
                    end_refusal(fault)
                }
            },
            _ => unreachable!(),
        }
    }
}
