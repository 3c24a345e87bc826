//! One run, whatever gives the packets, judges them and is told.
ghost use Rattle.std.specs.Prelude.{◌≡◌, MatchResult, None, Some};
ghost use Rattle.filter_run.specs.Ran.{IsBegun, IsRunFault, Ran, words_of};

use crate::judge::Judge;
use crate::observer::Observer;
use crate::source::{CaptureSource, Step};
use capture_stream::FaultAt;
use racl_io::{Captured, Fault, ReadBuffer};
use std::alloc::Global;

/// How many batches and packets a run takes, at most.
const MOST: usize = 4_611_686_018_427_387_904;

// A fault that is of no capture.
fn placeless(fault: Fault) -> FaultAt
    ensures { result ≡ record { fault = fault; interface = None } }
{
    FaultAt {
        fault,
        interface: None,
    }
}

// A fault where packets of this interface were at hand.
fn at(fault: Fault, interface: u8) -> FaultAt
    ensures { result ≡ record { fault = fault; interface = Some interface } }
{
    FaultAt {
        fault,
        interface: Some(interface),
    }
}

/// A judge judges all that a source gives, and an observer is told of each batch as soon as it is judged. It answers what is told
/// of the captures. A fault leaves what was told before. TooLarge: 2^62 batches or packets came.
pub fn run<V: Drop, S: CaptureSource, J: Judge<V>, O: Observer<V>>(
    alloc: Global,
    source: &mut S,
    judge: &mut J,
    observer: &mut O,
) -> Result<Vec<Captured>, FaultAt>
    requires { IsBegun S.gave J.became O.told source.old judge.old observer.old }
    ensures { let words = words_of S.gave S.over S.failed J.became O.told O.cut in
        MatchResult result (λ captures. Ran words source.old judge.old observer.old source.new judge.new observer.new captures.items)
        (IsRunFault words source.old judge.old observer.old source.new observer.new) }
{
    let mut room = ReadBuffer::new(Vec::new(alloc));
    let mut batches = 0;
    let mut packets = 0;
    'batches: while batches < MOST && packets < MOST {
        let batch = match source.next(room) {
            Ok(Step::Batch(batch)) => batch,
            Ok(Step::End(captures)) => return Ok(captures),
            Err(found) => return Err(found),
        };
        let Ok(said) = judge.judge(batch.packets()) else {
            return Err(at(Fault::Memory, batch.interface));
        };
        match observer.packets(&batch, &said) {
            Ok(()) => {}
            Err(fault) => return Err(at(fault, batch.interface)),
        }
        batches += 1;
        packets += said.len();
        room = batch.into_room();
    }
    Err(placeless(Fault::TooLarge))
}
