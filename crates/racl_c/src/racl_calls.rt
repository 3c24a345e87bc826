//! What C calls.
ghost use Rattle.std.specs.Prelude.{◌≡◌};
ghost use Rattle.flow_filter.specs.OneThread.{layout_of};
ghost use Rattle.racl_c.specs.Bursts.{BurstTold};
ghost use Rattle.racl_c.specs.Contents.{AgedTold, AreOfOneTable, Calls, CountsTold, HasJudge, JoinTold, JudgeTold, NewTold, RenewTold, RuleTold, SplitTold, TakeTold};
ghost use Rattle.racl_c.specs.Handles.{HasPlace, content_in};
ghost use Rattle.packet_view.specs.declared.tuple.Family.TheVariants.{V4, V6};
ghost use Rattle.racl_c.specs.declared.content_calls.Content.TheVariants.{Empty};

use crate::answer_numbers::{Answer, DONE, MEMORY, Made, fault_answer, options_refused, was_done};
use crate::burst::Descriptor;
use crate::content_calls::Content;
use crate::handle::{Handle, Place};
use crate::options::{Options, choice_of};
use acl_policy::PolicyFault;
use bihash_words::{LargeV4, LargeV6, Shape, ShapeV4, ShapeV6};
use flow_judge::Counts;
use packet_view::Family;
use std::alloc::Global;

/// A judge over new tables, by the policy of this text. The rest are the bytes of the options behind those that are known.
#[unsafe(no_mangle)]
pub extern "C" fn racl_new_with(
    alloc: Global,
    handle: &mut Handle,
    text: &[u8],
    options: &Options,
    rest: &[u8],
) -> Made
    ensures { NewTold (layout_of ⟦<ShapeV4 as Shape>⟧ ⟦<ShapeV6 as Shape>⟧)
        (layout_of ⟦<LargeV4 as Shape>⟧ ⟦<LargeV6 as Shape>⟧) text.now options.now rest.now
        (content_in handle.old.place) (content_in handle.new.place) result }
{
    let Some(choice) = choice_of(options, rest) else {
        return options_refused();
    };
    let content = match Content::new(alloc, text, &choice) {
        Ok(content) => content,
        Err(fault) => return fault_answer(fault),
    };
    match Box::new(alloc, Place { content }) {
        Ok(place) => {
            handle.put(place);
            was_done()
        }
        Err(_) => fault_answer(PolicyFault::Memory),
    }
}

/// One try of judging a frame that was seen at this interface in this second.
#[unsafe(no_mangle)]
pub extern "C" fn racl_judge(
    alloc: Global,
    handle: &mut Handle,
    interface: u8,
    moment: u32,
    frame: &[u8],
) -> Answer
    requires { HasJudge (content_in handle.old.place) }
    ensures { Calls (content_in handle.old.place) (content_in handle.new.place)
        (JudgeTold ⟦<ShapeV4 as Shape>⟧ ⟦<ShapeV6 as Shape>⟧
        (record { interface = interface; moment = moment; micros = 0; frame = frame.now }) result)
        (JudgeTold ⟦<LargeV4 as Shape>⟧ ⟦<LargeV6 as Shape>⟧
        (record { interface = interface; moment = moment; micros = 0; frame = frame.now }) result) }
{
    let mut place = handle.take(alloc);
    let answer = place.as_mut().content.judge(interface, moment, frame);
    handle.put(place);
    answer
}

/// Judges the frames of a burst in their order, and says how many were answered before one met another judge.
#[unsafe(no_mangle)]
pub extern "C" fn racl_judge_burst(
    alloc: Global,
    handle: &mut Handle,
    memory: &[u8],
    descriptors: &[Descriptor],
    answers: &mut [Answer],
) -> usize
    requires { HasJudge (content_in handle.old.place) }
    ensures { Calls (content_in handle.old.place) (content_in handle.new.place)
        (BurstTold ⟦<ShapeV4 as Shape>⟧ ⟦<ShapeV6 as Shape>⟧ memory.now descriptors.now answers.old answers.new result)
        (BurstTold ⟦<LargeV4 as Shape>⟧ ⟦<LargeV6 as Shape>⟧ memory.now descriptors.now answers.old answers.new result) }
{
    let mut place = handle.take(alloc);
    let content = &mut place.as_mut().content;
    let done = content.judge_burst(memory, descriptors, answers);
    handle.put(place);
    done
}

/// Judges by the policy of this text from now on. Sessions stay.
#[unsafe(no_mangle)]
pub extern "C" fn racl_set_policy(alloc: Global, handle: &mut Handle, text: &[u8]) -> Made
    requires { HasJudge (content_in handle.old.place) }
    ensures { Calls (content_in handle.old.place) (content_in handle.new.place)
        (RuleTold text.now result) (RuleTold text.now result) }
{
    let mut place = handle.take(alloc);
    let made = place.as_mut().content.set_policy(alloc, text);
    handle.put(place);
    made
}

/// Judges by the policy of another judge from now on, and by its timeouts, which are others only where the judge is alone over
/// its tables. Sessions stay.
#[unsafe(no_mangle)]
pub extern "C" fn racl_take_policy(alloc: Global, handle: &mut Handle, other: &mut Handle) -> u32
    requires judge { HasJudge (content_in handle.old.place) }
    requires other { HasJudge (content_in other.old.place) }
    ensures taken { Calls (content_in handle.old.place) (content_in handle.new.place)
        (TakeTold (layout_of ⟦<ShapeV4 as Shape>⟧ ⟦<ShapeV6 as Shape>⟧) (content_in other.old.place) result)
        (TakeTold (layout_of ⟦<LargeV4 as Shape>⟧ ⟦<LargeV6 as Shape>⟧) (content_in other.old.place) result) }
    ensures same { content_in other.new.place ≡ content_in other.old.place }
{
    let mut place = handle.take(alloc);
    let given = other.take(alloc);
    let answer = place.as_mut().content.take_policy(&given.as_ref().content);
    other.put(given);
    handle.put(place);
    answer
}

/// How many frames the judge gave each kind of verdict.
#[unsafe(no_mangle)]
pub extern "C" fn racl_counts(alloc: Global, handle: &mut Handle, counts: &mut Counts)
    requires { HasJudge (content_in handle.old.place) }
    ensures told { CountsTold (content_in handle.old.place) counts.new }
    ensures same { content_in handle.new.place ≡ content_in handle.old.place }
{
    let place = handle.take(alloc);
    *counts = place.as_ref().content.counts();
    handle.put(place);
}

/// One try of a look at a bucket of the table of IPv4 flows for a session that has ended by this second, which goes.
#[unsafe(no_mangle)]
pub extern "C" fn racl_expire_ipv4(
    alloc: Global,
    handle: &mut Handle,
    bucket: u64,
    moment: u32,
) -> u32
    requires { HasJudge (content_in handle.old.place) }
    ensures { Calls (content_in handle.old.place) (content_in handle.new.place)
        (AgedTold ⟦<ShapeV4 as Shape>⟧ ⟦<ShapeV6 as Shape>⟧ V4 bucket moment result)
        (AgedTold ⟦<LargeV4 as Shape>⟧ ⟦<LargeV6 as Shape>⟧ V4 bucket moment result) }
{
    let mut place = handle.take(alloc);
    let answer = place.as_mut().content.expire(Family::V4, bucket, moment);
    handle.put(place);
    answer
}

/// One try of a look at a bucket of the table of IPv6 flows for a session that has ended by this second, which goes.
#[unsafe(no_mangle)]
pub extern "C" fn racl_expire_ipv6(
    alloc: Global,
    handle: &mut Handle,
    bucket: u64,
    moment: u32,
) -> u32
    requires { HasJudge (content_in handle.old.place) }
    ensures { Calls (content_in handle.old.place) (content_in handle.new.place)
        (AgedTold ⟦<ShapeV4 as Shape>⟧ ⟦<ShapeV6 as Shape>⟧ V6 bucket moment result)
        (AgedTold ⟦<LargeV4 as Shape>⟧ ⟦<LargeV6 as Shape>⟧ V6 bucket moment result) }
{
    let mut place = handle.take(alloc);
    let answer = place.as_mut().content.expire(Family::V6, bucket, moment);
    handle.put(place);
    answer
}

/// A new judge over the same tables, by the same policy.
#[unsafe(no_mangle)]
pub extern "C" fn racl_split(alloc: Global, handle: &mut Handle, fresh: &mut Handle) -> u32
    requires { HasJudge (content_in handle.old.place) }
    ensures { SplitTold (layout_of ⟦<ShapeV4 as Shape>⟧ ⟦<ShapeV6 as Shape>⟧)
        (layout_of ⟦<LargeV4 as Shape>⟧ ⟦<LargeV6 as Shape>⟧) (content_in handle.old.place)
        (content_in handle.new.place) (content_in fresh.old.place) (content_in fresh.new.place) result }
{
    let Some(mut new) = Place::empty(alloc) else {
        return MEMORY;
    };
    let mut place = handle.take(alloc);
    let other: &mut Content = &mut new.as_mut().content;
    let answer = place.as_mut().content.split(alloc, other);
    handle.put(place);
    if answer == DONE {
        fresh.put(new);
    }
    answer
}

/// Ends the judge `other`, whose callers the first one has then.
#[unsafe(no_mangle)]
pub extern "C" fn racl_join(alloc: Global, handle: &mut Handle, other: &mut Handle)
    requires { AreOfOneTable (content_in handle.old.place) (content_in other.old.place) }
    ensures joined { JoinTold (layout_of ⟦<ShapeV4 as Shape>⟧ ⟦<ShapeV6 as Shape>⟧)
        (layout_of ⟦<LargeV4 as Shape>⟧ ⟦<LargeV6 as Shape>⟧) (content_in handle.old.place)
        (content_in other.old.place) (content_in handle.new.place) }
    ensures gone { content_in other.new.place ≡ Empty }
{
    let mut place = handle.take(alloc);
    let other = Box::into_inner(other.take(alloc));
    place.as_mut().content.join(other.content);
    handle.put(place);
}

/// Lets go of a judge, which isn't joined then.
#[unsafe(no_mangle)]
pub extern "C" fn racl_free(alloc: Global, handle: &mut Handle)
    requires { HasPlace handle.old.place }
    ensures { content_in handle.new.place ≡ Empty }
{
    drop(handle.take(alloc));
}

/// Opens the table of IPv4 flows again, over which the judge must be alone.
#[unsafe(no_mangle)]
pub extern "C" fn racl_renew_ipv4(alloc: Global, handle: &mut Handle) -> u32
    requires { HasJudge (content_in handle.old.place) }
    ensures { Calls (content_in handle.old.place) (content_in handle.new.place)
        (RenewTold ⟦<ShapeV4 as Shape>⟧ ⟦<ShapeV6 as Shape>⟧ V4 result)
        (RenewTold ⟦<LargeV4 as Shape>⟧ ⟦<LargeV6 as Shape>⟧ V4 result) }
{
    let mut place = handle.take(alloc);
    let answer = place.as_mut().content.renew(alloc, Family::V4);
    handle.put(place);
    answer
}

/// Opens the table of IPv6 flows again, over which the judge must be alone.
#[unsafe(no_mangle)]
pub extern "C" fn racl_renew_ipv6(alloc: Global, handle: &mut Handle) -> u32
    requires { HasJudge (content_in handle.old.place) }
    ensures { Calls (content_in handle.old.place) (content_in handle.new.place)
        (RenewTold ⟦<ShapeV4 as Shape>⟧ ⟦<ShapeV6 as Shape>⟧ V6 result)
        (RenewTold ⟦<LargeV4 as Shape>⟧ ⟦<LargeV6 as Shape>⟧ V6 result) }
{
    let mut place = handle.take(alloc);
    let answer = place.as_mut().content.renew(alloc, Family::V6);
    handle.put(place);
    answer
}
