//! The packets of several captures that come together, each as its records become whole.
ghost use Rattle.std.specs.Prelude.{◌≡◌, ◌⊎◌, ◌+◌, ◌-◌, ◌<◌, ◌≤◌, ◌^◌, ◌++◌, ℕ, List, [], IfErr, IfOk, MatchResult, None, Option, length};
ghost use Rattle.packet_view.specs.Captures.{RecordFacts};
ghost use Rattle.packet_view.specs.declared.capture.CaptureFault.{CaptureFault};
ghost use Rattle.racl_io.specs.Buffers.{held_by};
ghost use Rattle.racl_io.specs.Faults.{capture_fault};
ghost use Rattle.racl_io.specs.declared.fault.Fault.TheVariants.{Memory, Short};
ghost use Rattle.filter_run.specs.Turns.{HasCaptureEnded};
ghost use Rattle.filter_run.specs.inner.Lanes.{AreLanes, HasWaiting, IsHeadFault, IsLane, IsShort};
ghost use Rattle.filter_run.specs.inner.Parts.{HasPartedLane, HasTakenBytes, HasTakenEnd, IsEmptyBatch, cut_in, long_at};

use crate::batch::Batch;
use crate::capture_start::HEADER_BYTES;
use crate::source::{CaptureSource, Step};
use capture_stream::{Arrival, Arrivals, FaultAt, find_records};
use packet_view::{Order, Stop, capture_header};
use racl_io::{Captured, Fault, ReadBuffer};
use std::alloc::{AllocError, Global};
use std::mem::swap;

/// How many numbers interfaces can have.
const INTERFACES: usize = 256;

/// A capture of which some bytes came.
#[derive(Drop)]
pub struct Lane {
    /// The order of its numbers, once its header is whole.
    pub order: Option<Order>,
    /// Its bytes that belong to no whole record, nor to a whole header.
    pub window: ReadBuffer,
    /// How many whole records it has.
    pub packets: usize,
}

/// Several captures that come in parts, each taken at another interface. Each part is a batch: the records that it makes whole.
#[derive(Drop)]
pub struct ComingCaptures<'a, A> {
    pub arrivals: &'a mut A,
    pub alloc: Global,
    /// That of each interface.
    pub lanes: Vec<Lane>,
    /// Those that ended within a record, in the order in which they ended.
    pub cuts: Vec<Captured>,
    /// How many packets all of them have.
    pub packets: usize,
    /// The fault of the record behind the last batch's, where that is too long.
    pub long: Option<FaultAt>,
}

/// Bytes that wait of a capture whose header is whole.
#[derive(Drop)]
pub struct Waiting {
    pub order: Order,
    pub interface: u8,
    pub bytes: Vec<u8>,
}

impl Lane {
    ghost use Rattle.std.specs.Prelude.{[]};
    ghost use Rattle.filter_run.specs.inner.Lanes.{IsLane};

    /// One of which no byte came.
    pub fn new(alloc: Global) -> Lane
        ensures { IsLane [] [] result }
    {
        Lane {
            order: None,
            window: ReadBuffer::new(Vec::new(alloc)),
            packets: 0,
        }
    }
}

/// A lane for each interface.
pub fn new_lanes(alloc: Global) -> Result<Vec<Lane>, AllocError>
    ensures { IfOk result (λ lanes. AreLanes [] lanes.items) }
{
    let mut lanes = Vec::new(alloc);
    'lanes: while lanes.len() < INTERFACES {
        lanes.push(Lane::new(alloc))?;
    }
    Ok(lanes)
}

// These bytes, and others behind them.
fn joined(alloc: Global, held: &[u8], more: &[u8]) -> Result<Vec<u8>, AllocError>
    ensures { IfOk result (λ all. all.items ≡ held.now ++ more.now) }
{
    let mut all = Vec::from_slice(alloc, held)?;
    all.extend_from_slice(more)?;
    Ok(all)
}

// What waits of a capture of which all these bytes do: those behind its header, where this is whole now.
fn behind_header(
    alloc: Global,
    order: Option<Order>,
    all: Vec<u8>,
) -> Result<(Option<Order>, Vec<u8>), Fault>
    ensures waits { IfOk result (λ r. (bytes : List ℕ) (records : List RecordFacts) → HasWaiting order bytes records all.items → HasWaiting r.0 bytes records r.1.items) }
    ensures short { IfOk result (λ r. r.0 ≡ None → (order ≡ None) × (length r.1.items < 24)) }
    ensures few { IfOk result (λ r. length r.1.items ≤ length all.items) }
    ensures fault { IfErr result (λ fault. (bytes : List ℕ) (records : List RecordFacts) → HasWaiting order bytes records all.items → IsHeadFault bytes fault) }
{
    if let Some(order) = order {
        return Ok((Some(order), all));
    }
    if all.len() < HEADER_BYTES {
        return Ok((None, all));
    }
    let order = capture_header(&all)?;
    let rest = Vec::from_slice(alloc, &all[HEADER_BYTES..])?;
    Ok((Some(order), rest))
}

// A batch without packets, behind so many of all captures.
fn no_packets(alloc: Global, interface: u8, others: usize) -> Batch
    ensures { IsEmptyBatch interface others result }
{
    let order = Order::Little;
    let bytes = ReadBuffer::new(Vec::new(alloc));
    let found = find_records(bytes.bytes(), order);
    Batch {
        others,
        interface,
        order,
        numbers: None,
        bytes,
        found,
    }
}

// The whole records that wait of the capture of this lane are a batch, and what is behind them waits there.
fn part(lane: &mut Lane, waiting: Waiting, others: usize) -> Result<Batch, AllocError>
    requires { (length waiting.bytes.items < 4611686018427387904) × (lane.old.packets < 2 ^ 63) }
    ensures { IfOk result (HasPartedLane waiting others lane.old lane.new) }
{
    let Waiting {
        order,
        interface,
        bytes,
    } = waiting;
    let bytes = ReadBuffer::new(bytes);
    let all = bytes.bytes();
    let found = find_records(all, order);
    lane.window.hold(&all[all.len() - found.behind..])?;
    lane.order = Some(order);
    lane.packets += found.count;
    Ok(Batch {
        others,
        interface,
        order,
        numbers: None,
        bytes,
        found,
    })
}

// Some bytes came of the capture of this lane: the records that they make whole are a batch.
fn take_bytes(
    alloc: Global,
    lane: &mut Lane,
    arrival: &Arrival,
    others: usize,
) -> Result<Batch, Fault>
    requires few { (length arrival.now.bytes.items ≤ 65536) × (lane.old.packets < 2 ^ 63) }
    requires short { IsShort lane.old.order (held_by lane.old.window) }
    ensures { (bytes : List ℕ) (records : List RecordFacts) → IsLane bytes records lane.old
        → MatchResult result (HasTakenBytes arrival.now bytes records others lane.new) (IsHeadFault (bytes ++ arrival.now.bytes.items)) }
{
    let Ok(all) = joined(alloc, lane.window.bytes(), &arrival.bytes) else {
        return Err(Fault::Memory);
    };
    let (order, bytes) = match behind_header(alloc, lane.order, all) {
        Ok(waits) => waits,
        Err(fault) => return Err(fault),
    };
    let Some(order) = order else {
        lane.window = ReadBuffer::new(bytes);
        return Ok(no_packets(alloc, arrival.interface, others));
    };
    let waiting = Waiting {
        order,
        interface: arrival.interface,
        bytes,
    };
    match part(lane, waiting, others) {
        Ok(batch) => Ok(batch),
        Err(_) => Err(Fault::Memory),
    }
}

// The capture of this lane has ended: what is told of it where that is within a record.
fn end_lane(lane: &Lane, interface: u8) -> Result<Option<Captured>, Fault>
    ensures { (bytes : List ℕ) (records : List RecordFacts) → IsLane bytes records lane.now →
        MatchResult result (λ cut. HasCaptureEnded interface bytes records (cut_in cut)) (λ fault. (length bytes < 24) × (fault ≡ Short)) }
{
    let Some(_) = lane.order else {
        return Err(Fault::Short);
    };
    if lane.window.bytes().is_empty() {
        return Ok(None);
    }
    Ok(Some(Captured {
        named: Some(interface),
        packets: lane.packets,
        truncated: true,
    }))
}

// The capture of this lane has ended, which is noted where that is within a record.
fn take_end(lane: &Lane, cuts: &mut Vec<Captured>, interface: u8) -> Result<(), Fault>
    ensures { (bytes : List ℕ) (records : List RecordFacts) → IsLane bytes records lane.now → HasTakenEnd interface bytes records cuts.old.items cuts.new.items result }
{
    match end_lane(lane, interface) {
        Ok(None) => Ok(()),
        Ok(Some(cut)) => {
            cuts.push(cut)?;
            Ok(())
        }
        Err(fault) => Err(fault),
    }
}

// The fault of the record behind so many of this interface's capture, where that is too long.
fn long_behind(stop: Stop, interface: u8, packets: usize) -> Option<FaultAt>
    requires { packets < 2 ^ 64 - 1 }
    ensures { result ≡ long_at stop interface packets }
{
    match stop {
        Stop::TooLong => Some(FaultAt {
            fault: Fault::LongRecord(packets as u64 + 1),
            interface: Some(interface),
        }),
        _ => None,
    }
}

impl<'a, A> ComingCaptures<'a, A> {
    ghost use Rattle.std.specs.Prelude.{◌≡◌, ◌<◌, ◌≤◌, [], List, MatchResult, None, length};
    ghost use Rattle.filter_run.specs.Turns.{Turn};
    ghost use Rattle.filter_run.specs.inner.GivenTurns.{AreAfter};
    ghost use Rattle.filter_run.specs.inner.Lanes.{AreLanes};
    ghost use Rattle.filter_run.specs.inner.Parts.{HasTakenPart, IsPartFault};

    /// Of which no byte came.
    pub fn new(alloc: Global, arrivals: &'a mut A, lanes: Vec<Lane>) -> ComingCaptures<'a, A>
        requires { AreLanes [] lanes.items }
        ensures same { result.arrivals.ghost_name ≡ arrivals.entry.ghost_name }
        ensures arrivals { result.arrivals.now ≡ arrivals.old }
        ensures after { AreAfter [] result }
    {
        ComingCaptures {
            arrivals,
            alloc,
            lanes,
            cuts: Vec::new(alloc),
            packets: 0,
            long: None,
        }
    }

    /// Where they come from, behind all that came.
    pub fn into_arrivals(self) -> &'a mut A
        ensures same { result.ghost_name ≡ self.entry.arrivals.ghost_name }
        ensures behind { result.now ≡ self.entry.arrivals.now }
    {
        let ComingCaptures { arrivals, .. } = self;
        arrivals
    }

    // A part came: the records that it makes whole are a batch, which has none where it is its capture's end.
    fn take(&mut self, arrival: &Arrival) -> Result<Batch, Fault>
        requires may { (turns : List Turn) × AreAfter turns self.old }
        requires whole { self.old.long ≡ None }
        requires few { (self.old.packets < 4611686018427387904) × (length arrival.now.bytes.items ≤ 65536) }
        ensures taken { (turns : List Turn) → AreAfter turns self.old → MatchResult result (HasTakenPart arrival.now turns self.new) (IsPartFault arrival.now turns) }
        ensures same { self.new.arrivals ≡ self.old.arrivals }
    {
        let interface = arrival.interface;
        let lane = &mut self.lanes[interface as usize];
        if arrival.bytes.is_empty() {
            match take_end(lane, &mut self.cuts, interface) {
                Ok(()) => return Ok(no_packets(self.alloc, interface, self.packets)),
                Err(fault) => return Err(fault),
            }
        }
        let batch = match take_bytes(self.alloc, lane, arrival, self.packets) {
            Ok(batch) => batch,
            Err(fault) => return Err(fault),
        };
        self.long = long_behind(batch.found.stop, interface, lane.packets);
        self.packets += batch.found.count;
        Ok(batch)
    }
}

impl<'a, A: Arrivals> CaptureSource for ComingCaptures<'a, A> {
    ghost use Rattle.filter_run.specs.inner.GivenTurns.{HasFailedBehindTurns, HasGivenAllTurns, HasGivenTurns};

    ghost gave = { λ begun batches now. HasGivenTurns A.parts A.failures begun batches now };

    ghost over = { λ begun batches captures now. HasGivenAllTurns A.parts A.failures A.left begun batches captures now };

    ghost failed = { λ begun batches found now. HasFailedBehindTurns A.parts A.failures A.unread begun batches found now };

    // The next part is waited for.
    fn next(&mut self, _room: ReadBuffer) -> Result<Step, FaultAt> {
        if let Some(found) = self.long {
            return Err(found);
        }
        let arrival = match self.arrivals.next() {
            Ok(Some(arrival)) => arrival,
            Ok(None) => {
                let mut cuts = Vec::new(self.alloc);
                swap(&mut cuts, &mut self.cuts);
                return Ok(Step::End(cuts));
            }
            Err(found) => return Err(found),
        };
        match self.take(&arrival) {
            Ok(batch) => Ok(Step::Batch(batch)),
            Err(fault) => Err(FaultAt {
                fault,
                interface: Some(arrival.interface),
            }),
        }
    }
}
