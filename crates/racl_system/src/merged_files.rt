//! Captures in regular files, whose packets are handed on together, in the order of their moments.
ghost use Rattle.std.specs.Prelude.{[], ◌≡◌, ◌≢◌, ◌↔◌, ℕ, All, List, IfErr, IfNone, IfOk, IfSome, IsTrue, None, drop, false, is_some, true};
ghost use Rattle.packet_view.specs.Captures.{IsPiece, Record, RecordFacts};
ghost use Rattle.racl_io.specs.declared.fault.Fault.TheVariants.{Memory, Read as ReadFault};
ghost use Rattle.racl_system.specs.inner.MergedFiles.{
  HasLookedAtHeader,
  HasReadMore,
  IsCutShort,
  IsFilled,
  IsNext,
  IsNextAmong,
  IsNoWholeRecord,
  rest_of,
};
ghost use Rattle.racl_system.specs.inner.Merges.{
  AllMayCome,
  HasCounted,
  HasNoRecord,
  IsLeast,
  NoneMayCome,
  comes_before,
  first_of,
  may_come,
  turn_of,
};

use crate::capture_feeding::{Feed, PART_BYTES};
use packet_view::{NextRecord, Order, capture_header, next_record};
use racl_io::{Device, Fault, Source};
use std::io::Read;
use std::sync::Wait;

/// How many bytes the header of a capture has.
const HEADER_BYTES: usize = 24;

/// How many records are handed on at once, at most.
const MOST_RECORDS: usize = 1024;

/// A capture in a regular file, of which some bytes were handed on.
#[derive(Drop)]
pub struct MergedFile<F> {
    feed: Feed,
    source: Device<F>,
    /// The order of its numbers, once its header was handed on.
    order: Option<Order>,
    /// What was read.
    held: Vec<u8>,
    /// How many bytes of that were handed on.
    handed: usize,
    /// Whether no more is to be read.
    ended: bool,
}

/// Where a packet stands among those of all files: by the second, the microsecond, and the place of its file.
#[derive(Clone, Copy, Debug, PartialEq, Eq)]
struct FileTurn {
    moment: u32,
    micros: u32,
    place: usize,
}

// Whether a packet stands before another.
fn is_before(a: FileTurn, b: FileTurn) -> bool
    ensures { result ≡ comes_before a b }
{
    a.moment < b.moment
        || a.moment == b.moment
            && (a.micros < b.micros || a.micros == b.micros && a.place < b.place)
}

impl<F: Read> MergedFile<F> {
    /// A file of which nothing was read.
    pub fn new(feed: Feed, file: F) -> MergedFile<F>
        ensures feed { result.feed ≡ feed }
        ensures source { result.source ≡ record { inner = file; failures = 0 } }
        ensures order { result.order ≡ None }
        ensures held { result.held.items ≡ [] }
        ensures handed { result.handed ≡ 0 }
        ensures ended { result.ended ≡ false }
    {
        let held = Vec::new(feed.alloc);
        MergedFile {
            feed,
            source: Device::new(file),
            order: None,
            held,
            handed: 0,
            ended: false,
        }
    }

    // What was read and not handed on.
    fn rest(&self) -> &[u8]
        ensures { result.now ≡ rest_of self.now }
    {
        &self.held[self.handed.min(self.held.len())..]
    }

    // Reads some bytes behind the others.
    fn read_more(&mut self) -> Result<(), Fault>
        ensures read { IfOk result (λ _. HasReadMore F.remaining self.old self.new) }
        ensures kept { IfErr result (λ _. self.new ≡ record self.old { source = self.new.source }) }
        ensures memory { IfErr result (λ fault. self.new.source.failures ≡ 0 → fault ≡ Memory) }
        ensures failed { IfErr result (λ fault. self.new.source.failures ≢ 0 → fault ≡ ReadFault) }
    {
        if self.source.failures > 0 {
            return Err(Fault::Read);
        }
        let mut bytes = Vec::from_slice(self.feed.alloc, self.rest())?;
        let mut room = [0u8; PART_BYTES];
        let Ok(n) = self.source.read(&mut room) else {
            return Err(Fault::Read);
        };
        bytes.extend_from_slice(&room[..n])?;
        self.held = bytes;
        self.handed = 0;
        self.ended = n == 0;
        Ok(())
    }

    // Whether neither the header nor the record at the front is whole, and more can be read.
    fn wants_more(&self) -> bool
        ensures { IsTrue result ↔ ((self.now.ended ≡ false) × IsCutShort self.now.order (rest_of self.now)) }
    {
        match self.order {
            _ if self.ended => false,
            None => self.rest().len() < HEADER_BYTES,
            Some(order) => is_cut_short(self.rest(), order),
        }
    }

    // Hands on so many bytes of the front, which all are read. Whether more is wanted.
    fn hand_front(&self, rt: &impl Wait, count: usize) -> bool {
        let rest = self.rest();
        self.feed.hand_all(rt, &rest[..count.min(rest.len())])
    }

    // Hands on so many bytes of the front, which then are behind it. Whether more is wanted.
    fn take_front(&mut self, rt: &impl Wait, count: usize) -> bool
        ensures rest { rest_of self.new ≡ drop count (rest_of self.old) }
        ensures same { self.new ≡ record self.old { handed = self.new.handed } }
    {
        let is_wanted = self.hand_front(rt, count);
        self.handed = self.handed.saturating_add(count);
        is_wanted
    }

    // Hands on the header, where it is whole and right. Of a wrong one all stays, and no more is read. Whether more is wanted.
    fn take_header(&mut self, rt: &impl Wait) -> bool
        ensures { HasLookedAtHeader self.old self.new }
    {
        if self.order.is_some() || self.rest().len() < HEADER_BYTES {
            return true;
        }
        match capture_header(self.rest()) {
            Ok(order) => {
                self.order = Some(order);
                self.take_front(rt, HEADER_BYTES)
            }
            Err(_) => {
                self.ended = true;
                true
            }
        }
    }

    // Whether its header was handed on. One that is wrong or short is handed on now, before the packets of other files, since
    // nothing is wanted behind it.
    fn has_header(&self, rt: &impl Wait) -> bool
        ensures { result ≡ is_some self.now.order }
    {
        if self.order.is_none() {
            let _ = self.hand_rest(rt);
        }
        self.order.is_some()
    }

    // Reads until a record is whole, or no more can be read. Whether more is wanted.
    fn fill(&mut self, rt: &impl Wait) -> bool
        ensures { result ≡ true → IsFilled self.new }
    {
        'reads: for _ in rt.forever() {
            if !self.take_header(rt) {
                return false;
            }
            if !self.wants_more() {
                return self.has_header(rt);
            }
            match self.read_more() {
                Ok(()) => {}
                Err(fault) => {
                    self.feed.fail(rt, fault);
                    return false;
                }
            }
        }
        false
    }

    // Where its next packet stands, where it is the file at this place; None where it has no more that is whole.
    fn turn(&self, place: usize) -> Option<FileTurn>
        ensures some { IfSome result (λ turn. (turn.place ≡ place) × IsNext self.now turn) }
        ensures none { IfNone result ((turn : FileTurn) → IsNext self.now turn → ⊥) }
    {
        turn_at(self.rest(), self.order?, place)
    }

    // Hands on the records at the front whose packets stand before this one, the next of another file. Whether more is wanted.
    fn hand_before(&mut self, rt: &impl Wait, place: usize, next: Option<FileTurn>) -> bool
        ensures rest { IfSome self.old.order (λ order. (count : ℕ) × HasCounted order (rest_of self.old) place next count × (rest_of self.new ≡ drop count (rest_of self.old))) }
        ensures same { self.new ≡ record self.old { handed = self.new.handed } }
    {
        let Some(order) = self.order else {
            return false;
        };
        let count = count_before(self.rest(), order, place, next);
        self.take_front(rt, count)
    }

    // Hands on what is left, and that the file has ended. Whether more is wanted.
    fn hand_rest(&self, rt: &impl Wait) -> bool {
        if !self.feed.hand_all(rt, self.rest()) {
            return false;
        }
        self.feed.end(rt);
        true
    }
}

// Whether these bytes are nothing or the front of a record, and not all of one.
fn is_cut_short(bytes: &[u8], order: Order) -> bool
    ensures { IsTrue result ↔ IsNoWholeRecord order bytes.now }
{
    match next_record(bytes, order) {
        NextRecord::End | NextRecord::Truncated => true,
        NextRecord::Whole { .. } | NextRecord::TooLong => false,
    }
}

// Where the packet of the record at these bytes' front stands, in the file at this place; None where no record is whole there.
fn turn_at(bytes: &[u8], order: Order, place: usize) -> Option<FileTurn>
    ensures some { IfSome result (λ turn. (packet : RecordFacts) × (rest : List ℕ) × IsPiece order bytes.now (Record packet rest) × (turn ≡ turn_of place packet)) }
    ensures none { IfNone result (HasNoRecord order bytes.now) }
{
    match next_record(bytes, order) {
        NextRecord::Whole { moment, micros, .. } => Some(FileTurn {
            moment,
            micros,
            place,
        }),
        NextRecord::End | NextRecord::Truncated | NextRecord::TooLong => None,
    }
}

// What stands behind the record at the front, where its packet stands before this one, the next of another file.
fn behind_first(bytes: &[u8], order: Order, place: usize, next: Option<FileTurn>) -> Option<&[u8]>
    ensures some { IfSome result (λ rest. (packet : RecordFacts) × IsPiece order bytes.now (Record packet rest.now) × (may_come place next packet ≡ true)) }
    ensures none { IfNone result (NoneMayCome order bytes.now place next) }
{
    let NextRecord::Whole {
        moment,
        micros,
        rest,
        ..
    } = next_record(bytes, order)
    else {
        return None;
    };
    let turn = FileTurn {
        moment,
        micros,
        place,
    };
    match next {
        Some(next) if is_before(next, turn) => None,
        _ => Some(rest),
    }
}

// What stands behind the records at the front whose packets stand before this one, the next of another file.
fn behind_those(bytes: &[u8], order: Order, place: usize, next: Option<FileTurn>) -> &[u8]
    ensures { AllMayCome order bytes.now place next result.now }
{
    let mut left = bytes;
    'records: for _count in 0..MOST_RECORDS {
        let Some(rest) = behind_first(left, order, place, next) else {
            return left;
        };
        left = rest;
    }
    left
}

// How many bytes the records at the front have whose packets stand before this one, the next of another file.
fn count_before(bytes: &[u8], order: Order, place: usize, next: Option<FileTurn>) -> usize
    ensures { HasCounted order bytes.now place next result }
{
    let left = behind_those(bytes, order, place, next);
    bytes.len().saturating_sub(left.len())
}

// The one of two packets that stands before the other, where both are there.
fn first_of(one: Option<FileTurn>, other: Option<FileTurn>) -> Option<FileTurn>
    ensures { result ≡ first_of one other }
{
    match (one, other) {
        (Some(one), Some(other)) if is_before(other, one) => Some(other),
        (None, other) => other,
        (one, _) => one,
    }
}

// The first of the packets that stand next in these files, but for the one at a place.
fn first_turn<F: Read>(files: &[MergedFile<F>], but: Option<usize>) -> Option<FileTurn>
    ensures { IsLeast (IsNextAmong files.now but) result }
{
    let mut first = None;
    'files: for place in 0..files.len() {
        if but == Some(place) {
            continue;
        }
        first = first_of(first, files[place].turn(place));
    }
    first
}

// Reads of each file until a record of it is whole, or it has no more. Whether more is wanted.
fn fill_all<F: Read>(rt: &impl Wait, files: &mut [MergedFile<F>]) -> bool
    ensures { result ≡ true → All IsFilled files.new }
{
    for place in 0..files.len() {
        if !files[place].fill(rt) {
            return false;
        }
    }
    true
}

/// Hands on all that these files have: whole records in the order of their packets' moments, each file's own as they stand there,
/// and then of each what belongs to none, and its end. No clause can name what a channel holds, and nothing is answered: the runs of
/// `tests/run` on live interfaces look at what comes.
pub fn hand_merged<F: Read + Drop>(rt: &impl Wait, files: Vec<MergedFile<F>>) {
    let mut files = files;
    'rounds: for _ in rt.forever() {
        if !fill_all(rt, &mut files) {
            return;
        }
        let Some(FileTurn { place, .. }) = first_turn(&files, None) else {
            break;
        };
        let next = first_turn(&files, Some(place));
        if place >= files.len() || !files[place].hand_before(rt, place, next) {
            return;
        }
    }
    for place in 0..files.len() {
        if !files[place].hand_rest(rt) {
            return;
        }
    }
}
