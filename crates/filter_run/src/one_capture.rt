//! The packets of one capture, as a reader gives it behind its header, or behind more of it that was read before.
ghost use Rattle.std.specs.Prelude.{◌≡◌, ◌+◌, ◌-◌, ◌<◌, ◌≤◌, ◌^◌, IfSome, MatchResult, None, length};
ghost use Rattle.racl_io.specs.Inputs.{most_bytes};
ghost use Rattle.racl_io.specs.Transfers.{GaveAtMost};
ghost use Rattle.capture_stream.specs.Lives.{with_read};
ghost use Rattle.filter_run.specs.Starts.{most_at};
ghost use Rattle.filter_run.specs.inner.Reads.{HasReadOut, IsMissed, IsOutFault};
ghost use Rattle.capture_stream.specs.Parting.{rest_in};
ghost use Rattle.capture_stream.specs.inner.Partings.{HasGot};

use crate::batch::Batch;
use crate::capture_start::CaptureStart;
use crate::source::{CaptureSource, Step};
use capture_stream::{FaultAt, ReadSize, RecordParting, is_cut};
use packet_view::Stop;
use racl_io::{Captured, Fault, MOST_BYTES, ReadBuffer, Source, drain};
use std::alloc::{AllocError, Global};
use std::mem::swap;

/// How many bytes a capture that is no part of an input has behind its header, at most.
const MOST_ALONE: usize = 4_611_686_018_427_387_903;

/// One capture that a reader gives. Its packets were seen at the interface with the number 0.
#[derive(Drop)]
pub struct OneCapture<'r, R> {
    pub reader: &'r mut R,
    /// What parts its bytes into records.
    pub parting: RecordParting,
    pub alloc: Global,
    /// How many bytes the next read asks for.
    pub size: ReadSize,
    /// Where it is part of an input, how many bytes of the input stand before those that were read.
    pub input: Option<usize>,
    /// How many bytes were read, by others before it, or by it.
    pub read: usize,
    /// Whether bytes wait that weren't parted into records yet.
    pub waits: bool,
    /// Why its whole records end where they do.
    pub stop: Stop,
}

// A fault of the capture.
fn at(fault: Fault) -> FaultAt
    ensures { result ≡ record { fault = fault; interface = None } }
{
    FaultAt {
        fault,
        interface: None,
    }
}

impl<'r, R> OneCapture<'r, R> {
    ghost use Rattle.std.specs.Prelude.{◌≡◌, ◌+◌, ◌<◌, ◌^◌, IfErr, IfOk, length};
    ghost use Rattle.racl_io.specs.Tellings.{told_alone};
    ghost use Rattle.capture_stream.specs.Parting.{rest_in};
    ghost use Rattle.capture_stream.specs.Found.{HaveFound};
    ghost use Rattle.filter_run.specs.OneCapture.{HasParted};

    // What is told of it where it ends here.
    fn ended(&self, truncated: bool) -> Result<Vec<Captured>, AllocError>
        ensures { IfOk result (λ captures. captures.items ≡ told_alone self.now.parting.packets truncated) }
    {
        let mut captures = Vec::new(self.alloc);
        captures.push(Captured {
            named: None,
            packets: self.parting.packets,
            truncated,
        })?;
        Ok(captures)
    }

    /// The reader, behind all that was read.
    pub fn into_reader(self) -> &'r mut R
        ensures same { result.ghost_name ≡ self.entry.reader.ghost_name }
        ensures behind { result.now ≡ self.entry.reader.now }
    {
        let OneCapture { reader, .. } = self;
        reader
    }

    // The whole records that wait. What waits behind them gets this room.
    fn part(&mut self, room: ReadBuffer) -> Result<Batch, AllocError>
        requires found { HaveFound self.old.parting.order (rest_in self.old.parting) self.old.parting.found }
        requires few { self.old.parting.packets + length (rest_in self.old.parting) < 2 ^ 63 }
        ensures parted { IfOk result (HasParted self.old self.new) }
        ensures same { IfErr result (λ _. self.new.reader ≡ self.old.reader) }
    {
        let others = self.parting.packets;
        self.parting.spare = room;
        let found = self.parting.settle()?;
        let mut bytes = ReadBuffer::new(Vec::new(self.alloc));
        swap(&mut bytes, &mut self.parting.spare);
        self.stop = found.stop;
        self.waits = false;
        Ok(Batch {
            others,
            interface: self.parting.interface,
            order: self.parting.order,
            numbers: None,
            bytes,
            found,
        })
    }
}

// The room for what waits behind a read: where one read may give many bytes, that of the batch before is given back first, so that
// there is never room for two of them.
fn room_beside(
    alloc: Global,
    input: Option<usize>,
    size: ReadSize,
    room: ReadBuffer,
) -> ReadBuffer {
    if input.is_some() || size.many.is_none() {
        return room;
    }
    ReadBuffer::new(Vec::new(alloc))
}

// Reads behind the bytes that wait, and none only at the source's end: how many they are. Of an input as many are read as threads
// may pay for, since nothing of it is told before its end; else what one read gives.
fn read_next<R: Source>(
    alloc: Global,
    parting: &mut RecordParting,
    reader: &mut R,
    input: Option<usize>,
    size: ReadSize,
) -> Result<usize, Fault>
    requires few { length (rest_in parting.old) + 8388608 < 2 ^ 63 }
    requires within { IfSome input (λ before. length (rest_in parting.old) + size.bytes ≤ most_bytes + 1) }
    requires sound { R.failures reader.old < 2 ^ 64 - 1 }
    ensures got { MatchResult result (HasGot (R.bytes reader.old) (R.bytes reader.new) parting.old parting.new size.bytes) (IsMissed input size.bytes (R.bytes reader.old) (R.bytes reader.new)) }
    ensures failures { MatchResult result (λ _. R.failures reader.new ≡ R.failures reader.old) (λ fault. R.failures reader.new ≡ with_read (R.failures reader.old) fault) }
{
    if input.is_none() || size.many.is_none() {
        return parting.read_part(alloc, reader, size);
    }
    parting.fill(reader, size.bytes)
}

// How many bytes may come of a capture with so many bytes of an input before it, where it is part of one.
fn most_of(input: Option<usize>) -> usize
    requires { IfSome input (λ before. before ≤ most_bytes) }
    ensures { result ≡ most_at input }
{
    match input {
        None => MOST_ALONE,
        Some(before) => MOST_BYTES - before,
    }
}

// Reads the input that a capture is part of to its end, where it is part of one, behind so many bytes of the capture.
fn read_out<R: Source>(reader: &mut R, input: Option<usize>, read: usize) -> Result<(), Fault>
    requires few { IfSome input (λ before. before + read ≤ most_bytes) }
    requires sound { R.failures reader.old < 2 ^ 64 - 1 }
    ensures out { let old = R.bytes reader.old in let new = R.bytes reader.new in MatchResult result (λ _. HasReadOut input read old new) (IsOutFault input read old new) }
    ensures far { GaveAtMost (R.bytes reader.old) (R.bytes reader.new) (most_at input + 1 - read) }
    ensures failures { MatchResult result (λ _. R.failures reader.new ≡ R.failures reader.old) (λ fault. R.failures reader.new ≡ with_read (R.failures reader.old) fault) }
{
    match input {
        None => Ok(()),
        Some(before) => drain(reader, before + read),
    }
}

impl<'r, R: Source> OneCapture<'r, R> {
    ghost use Rattle.std.specs.Prelude.{◌≡◌, ◌-◌, ◌<◌, ◌≤◌, ◌^◌, [], IfSome, MatchResult, length};
    ghost use Rattle.racl_io.specs.Inputs.{most_bytes};
    ghost use Rattle.filter_run.specs.OneCapture.{HasFailedBehind, HasGiven, start_of};
    ghost use Rattle.filter_run.specs.Sources.{HasFailed, MayGive};
    ghost use Rattle.filter_run.specs.Starts.{most_at, start_facts};
    ghost use Rattle.filter_run.specs.inner.Reads.{HasReadMore};

    /// Of which nothing was given. The reader stands behind the bytes that were read before. Where `many` is given, reads grow
    /// while they give so many packets.
    pub fn new(
        alloc: Global,
        reader: &'r mut R,
        start: CaptureStart,
        many: Option<usize>,
    ) -> OneCapture<'r, R>
        requires front { length start.front.items ≤ most_at start.input }
        requires input { IfSome start.input (λ before. before ≤ most_bytes) }
        requires sound { R.failures reader.old < 2 ^ 64 - 1 }
        ensures same { result.reader.ghost_name ≡ reader.entry.ghost_name }
        ensures reader { result.reader.now ≡ reader.old }
        ensures start { start_of result ≡ start_facts start }
        ensures gave { HasGiven R.bytes R.failures result [] result }
    {
        let CaptureStart {
            order,
            front,
            input,
        } = start;
        let read = front.len();
        OneCapture {
            reader,
            parting: RecordParting::new(alloc, order, 0, front),
            alloc,
            size: ReadSize::first(many),
            input,
            read,
            waits: read > 0,
            stop: Stop::End,
        }
    }

    // Some bytes are read behind those that wait, unless these weren't parted yet. At the end it answers what is told of the capture.
    fn read_more(&mut self) -> Result<Option<Vec<Captured>>, FaultAt>
        requires { MayGive (HasGiven R.bytes R.failures) self.old }
        ensures { MatchResult result (HasReadMore R.bytes R.failures self.old self.new) (HasFailed (HasGiven R.bytes R.failures) (HasFailedBehind R.bytes R.failures) self.old self.new) }
    {
        if self.waits {
            return Ok(None);
        }
        let most = most_of(self.input);
        if self.read > most {
            return Err(at(Fault::TooLarge));
        }
        let truncated = match is_cut(self.stop, self.parting.packets) {
            Ok(truncated) => truncated,
            Err(fault) => match read_out(self.reader, self.input, self.read) {
                Ok(()) => return Err(at(fault)),
                Err(earlier) => return Err(at(earlier)),
            },
        };
        let size = self.size.within(most + 1 - self.read);
        let n = match read_next(self.alloc, &mut self.parting, self.reader, self.input, size) {
            Ok(n) => n,
            Err(fault) => return Err(at(fault)),
        };
        if n == 0 {
            match self.ended(truncated) {
                Ok(captures) => return Ok(Some(captures)),
                Err(_) => return Err(at(Fault::Memory)),
            }
        }
        self.read += n;
        self.size = self.size.behind(n, self.parting.found.count);
        self.waits = true;
        Ok(None)
    }
}

impl<'r, R: Source> CaptureSource for OneCapture<'r, R> {
    ghost use Rattle.filter_run.specs.OneCapture.{HasFailedBehind, HasGiven, HasGivenAll};

    ghost gave = { λ begun batches now. HasGiven R.bytes R.failures begun batches now };

    ghost over = { λ begun batches captures now. HasGivenAll R.bytes R.failures begun batches captures now };

    ghost failed = { λ begun batches found now. HasFailedBehind R.bytes R.failures begun batches found now };

    // The whole records are given among the bytes that wait: those that were read before, or behind some more.
    fn next(&mut self, room: ReadBuffer) -> Result<Step, FaultAt> {
        let room = room_beside(self.alloc, self.input, self.size, room);
        match self.read_more() {
            Ok(None) => {}
            Ok(Some(captures)) => return Ok(Step::End(captures)),
            Err(found) => return Err(found),
        }
        match self.part(room) {
            Ok(batch) => Ok(Step::Batch(batch)),
            Err(_) => Err(at(Fault::Memory)),
        }
    }
}
