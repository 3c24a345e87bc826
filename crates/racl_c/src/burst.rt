//! Frames judged one after the other in one call.
ghost use Rattle.std.specs.Prelude.{◌≡◌};
ghost use Rattle.racl_c.specs.Bursts.{BurstTold, frame_in, packet_in};
ghost use Rattle.racl_c.specs.Contents.{JudgeTold};

use crate::answer_numbers::{Answer, CONTENDED, judged_answer};
use bihash_words::Shape;
use flow_judge::Judge;

// For how many frames loads are made before the first of them is judged.
const AHEAD: usize = 16;

/// A frame in an area of memory, which was seen at this interface in this second.
#[repr(C)]
#[derive(Clone, Copy)]
pub struct Descriptor {
    /// Where the frame begins in the area, in bytes.
    pub at: u64,
    pub length: u32,
    pub second: u32,
    pub interface_number: u8,
}

// The frame that a descriptor names, and none of its bytes where some don't lie in the area.
#[inline(always)]
fn frame_of<'a>(memory: &'a [u8], descriptor: &Descriptor) -> &'a [u8]
    ensures { result.now ≡ frame_in memory.now descriptor.now }
{
    if descriptor.at > memory.len() as u64 {
        return &[];
    }
    let rest = &memory[descriptor.at as usize..];
    let length = descriptor.length as usize;
    if length > rest.len() {
        return &[];
    }
    &rest[..length]
}

// One try of judging the frame that a descriptor names.
#[inline(always)]
fn judge_described<A: Shape, B: Shape>(
    judge: &mut Judge<A, B>,
    memory: &[u8],
    descriptor: &Descriptor,
) -> Answer
    ensures { JudgeTold ⟦<A as Shape>⟧ ⟦<B as Shape>⟧ (packet_in memory.now descriptor.now) result judge.old judge.new }
{
    let frame = frame_of(memory, descriptor);
    judged_answer(judge.judge(descriptor.interface_number, descriptor.second, frame))
}

// Loads what judging the frames at this place and behind it will load, each time that enough of them were judged: all their
// buckets first, and then all their pages, so that the processor waits for many loads at once. It leaves nothing that a clause
// could name.
#[inline(always)]
fn load_ahead_at<A: Shape, B: Shape>(
    at: usize,
    judge: &Judge<A, B>,
    memory: &[u8],
    descriptors: &[Descriptor],
) {
    if judge.is_far() && at % AHEAD == 0 && at < descriptors.len() {
        load_ahead(judge, memory, &descriptors[at..]);
    }
}

// Loads what judging the first of these frames will load.
#[inline(never)]
fn load_ahead<A: Shape, B: Shape>(judge: &Judge<A, B>, memory: &[u8], descriptors: &[Descriptor]) {
    let mut hashes = [0; AHEAD];
    let count = descriptors.len().min(AHEAD);
    for i in 0..count {
        let frame = frame_of(memory, &descriptors[i]);
        hashes[i] = judge.load_bucket(descriptors[i].interface_number, frame);
    }
    for hash in &hashes[..count] {
        judge.load_page(*hash);
    }
}

/// Judges the frames that the descriptors name, in their order, and answers each at its place, until one meets another
/// judge's change or lock or there is no descriptor or no place more; how many were answered before. The frame behind these
/// has the answer that it met another judge, where it did.
pub fn judge_burst<A: Shape, B: Shape>(
    judge: &mut Judge<A, B>,
    memory: &[u8],
    descriptors: &[Descriptor],
    answers: &mut [Answer],
) -> usize
    ensures { BurstTold ⟦<A as Shape>⟧ ⟦<B as Shape>⟧ memory.now descriptors.now answers.old answers.new result judge.old judge.new }
{
    let mut done = 0;
    'frames: while done < descriptors.len() && done < answers.len() {
        load_ahead_at(done, judge, memory, descriptors);
        let answer = judge_described(judge, memory, &descriptors[done]);
        answers[done] = answer;
        if answer.kind == CONTENDED {
            return done;
        }
        done += 1;
    }
    done
}
