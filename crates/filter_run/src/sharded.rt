//! The packets of a shard, of those that another source gives.
ghost use Rattle.std.specs.Prelude.{◌≡◌, IfOk, None, Some};
ghost use Rattle.racl_io.specs.declared.fault.Fault.{Fault};
ghost use Rattle.capture_shards.specs.OwnRecords.{latest_of};
ghost use Rattle.capture_shards.specs.inner.OwnTests.{own_of};
ghost use Rattle.filter_run.specs.Batches.{IsWhole, batch_facts, packets_in};
ghost use Rattle.filter_run.specs.Sharded.{IsOwnBatch};

use crate::batch::Batch;
use crate::latest_second::latest_where;
use crate::source::{CaptureSource, Step};
use capture_shards::{OwnRecords, Shard, records_of_shard};
use capture_stream::{FaultAt, find_records};
use racl_io::{Fault, ReadBuffer};
use std::alloc::{AllocError, Global};
use std::mem::swap;

/// How many packets are taken of a source, at most.
const MOST: usize = 4_611_686_018_427_387_904;

/// The packets of a shard of those that a source gives, with their numbers among all; or all of these, where there is no shard.
#[derive(Drop)]
pub struct Sharded<S> {
    pub inner: S,
    pub shard: Option<Shard>,
    pub alloc: Global,
    /// Whether the latest second of all packets is noted, of the shard's and of others.
    pub noted: bool,
    /// The latest second; before the first packet 0.
    pub latest: u32,
    /// How many packets the source gave.
    pub seen: usize,
    /// Room for what the source gives next, where there is a shard.
    pub spare: ReadBuffer,
}

impl<S> Sharded<S> {
    /// The source, behind all that it gave.
    pub fn into_inner(self) -> S
        ensures { result ≡ self.inner }
    {
        let Sharded { inner, .. } = self;
        inner
    }
}

// What there is of a shard in a batch: its packets, and the latest second of all of the batch.
#[derive(Drop)]
struct OwnPart {
    batch: Batch,
    latest: u32,
}

// The shard's packets of a batch, which may have none.
fn own_part(alloc: Global, shard: &Shard, batch: &Batch) -> Result<OwnPart, AllocError>
    requires { IsWhole batch.now }
    ensures whole { IfOk result (λ part. IsWhole part.batch) }
    ensures own { IfOk result (λ part. IsOwnBatch (own_of shard.now) (batch_facts batch.now) (batch_facts part.batch)) }
    ensures latest { IfOk result (λ part. part.latest ≡ latest_of (packets_in (batch_facts batch.now))) }
{
    let OwnRecords {
        bytes,
        numbers,
        latest,
        ..
    } = records_of_shard(
        alloc,
        shard,
        batch.others as u64,
        batch.records(),
        batch.order,
    )?;
    let bytes = ReadBuffer::new(bytes);
    let found = find_records(bytes.bytes(), batch.order);
    Ok(OwnPart {
        batch: Batch {
            others: batch.others,
            interface: batch.interface,
            order: batch.order,
            numbers: Some(numbers),
            bytes,
            found,
        },
        latest,
    })
}

// A fault where so much came, and one where packets of this interface were at hand.
fn fault_of(fault: Fault, interface: Option<u8>) -> FaultAt
    ensures { result ≡ record { fault = fault; interface = interface } }
{
    FaultAt { fault, interface }
}

impl<S: CaptureSource> Sharded<S> {
    ghost use Rattle.std.specs.Prelude.{◌≡◌, ◌<◌, MatchResult, None, Some};
    ghost use Rattle.filter_run.specs.Sharded.{HasFailedOwn, HasGivenAllOwn, HasGivenOwn};
    ghost use Rattle.filter_run.specs.Sources.{HasFailed, HasStepped, MayGive};

    // All packets that the source has next are given.
    fn next_of_all(&mut self, room: ReadBuffer) -> Result<Step, FaultAt>
        requires may { MayGive (HasGivenOwn S.gave) self.old }
        requires few { self.old.seen < 4611686018427387904 }
        requires all { self.old.shard ≡ None }
        ensures { MatchResult result (HasStepped (HasGivenOwn S.gave) (HasGivenAllOwn S.over) self.old self.new) (HasFailed (HasGivenOwn S.gave) (HasFailedOwn S.gave S.failed) self.old self.new) }
    {
        match self.inner.next(room) {
            Ok(Step::Batch(batch)) => {
                self.seen += batch.found.count;
                self.latest = latest_where(self.noted, self.latest, batch.packets());
                Ok(Step::Batch(batch))
            }
            Ok(Step::End(captures)) => Ok(Step::End(captures)),
            Err(found) => Err(found),
        }
    }

    // The shard's packets are given, of those that the source has next.
    fn next_of_shard(&mut self, shard: &Shard) -> Result<Step, FaultAt>
        requires may { MayGive (HasGivenOwn S.gave) self.old }
        requires few { self.old.seen < 4611686018427387904 }
        requires own { self.old.shard ≡ Some shard.now }
        ensures { MatchResult result (HasStepped (HasGivenOwn S.gave) (HasGivenAllOwn S.over) self.old self.new) (HasFailed (HasGivenOwn S.gave) (HasFailedOwn S.gave S.failed) self.old self.new) }
    {
        let mut room = ReadBuffer::new(Vec::new(self.alloc));
        swap(&mut room, &mut self.spare);
        let batch = match self.inner.next(room) {
            Ok(Step::Batch(batch)) => batch,
            Ok(Step::End(captures)) => return Ok(Step::End(captures)),
            Err(found) => return Err(found),
        };
        let Ok(part) = own_part(self.alloc, shard, &batch) else {
            return Err(fault_of(Fault::Memory, Some(batch.interface)));
        };
        self.seen += batch.found.count;
        self.latest = self.latest.max(part.latest);
        self.spare = batch.into_room();
        let OwnPart { batch, .. } = part;
        Ok(Step::Batch(batch))
    }
}

impl<S: CaptureSource> CaptureSource for Sharded<S> {
    ghost use Rattle.filter_run.specs.Sharded.{HasFailedOwn, HasGivenAllOwn, HasGivenOwn};

    ghost gave = { λ begun batches now. HasGivenOwn S.gave begun batches now };

    ghost over = { λ begun batches captures now. HasGivenAllOwn S.over begun batches captures now };

    ghost failed = { λ begun batches found now. HasFailedOwn S.gave S.failed begun batches found now };

    // The source's next packets, or the shard's of these.
    fn next(&mut self, room: ReadBuffer) -> Result<Step, FaultAt> {
        if self.seen >= MOST {
            return Err(fault_of(Fault::TooLarge, None));
        }
        match self.shard {
            None => self.next_of_all(room),
            Some(shard) => self.next_of_shard(&shard),
        }
    }
}
