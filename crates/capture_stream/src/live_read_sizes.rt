//! How many bytes of a capture that comes a live read asks for, and a read of many bytes.
ghost use Rattle.std.specs.Prelude.{◌≡◌, ◌⊎◌, ◌+◌, ◌-◌, ◌<◌, ◌≤◌, ◌^◌, IfErr, IfOk, MatchResult, length, take};
ghost use Rattle.std.specs.Io.KnownBytes.{Keeps};
ghost use Rattle.racl_io.specs.Transfers.{HasGained};
ghost use Rattle.racl_io.specs.declared.fault.Fault.TheVariants.{Memory, Read};
ghost use Rattle.capture_stream.specs.Lives.{with_read};

use racl_io::{Fault, Source};
use std::alloc::{AllocError, Global};

/// How many bytes the first read asks for: what a pipe holds.
const FIRST_READ: usize = 65_536;

/// How many bytes a read asks for at most.
const MOST_READ: usize = 8_388_608;

/// How many bytes the next read asks for.
#[derive(Clone, Copy)]
pub struct ReadSize {
    pub bytes: usize,
    /// Where reads grow, from how many packets of a read on threads pay.
    pub many: Option<usize>,
    ghost some: { 1 ≤ bytes },
    ghost few: { bytes ≤ 8388608 },
}

impl ReadSize {
    ghost use Rattle.std.specs.Prelude.{◌≡◌, ◌*◌, if◌then◌else◌, None, min};
    ghost use Rattle.capture_stream.specs.ReadSizes.{grows_behind};

    /// That of the first read.
    pub fn first(many: Option<usize>) -> ReadSize
        ensures bytes { result.bytes ≡ 65536 }
        ensures many { result.many ≡ many }
    {
        ReadSize {
            bytes: FIRST_READ,
            many,
        }
    }

    // Whether the next read is larger, or as large as reads can be, where this one gave so many bytes and so many packets.
    fn grows(self, read: usize, packets: usize) -> bool
        ensures { result ≡ grows_behind self.many self.bytes read packets }
    {
        match self.many {
            None => false,
            Some(many) => self.bytes <= read && (self.bytes < MOST_READ || many <= packets),
        }
    }

    /// That of the read behind one that gave so many bytes and so many packets: twice as many, so that large windows follow
    /// that pay for threads. Once a read gives less than it was asked for, as of a pipe, or one of the largest too few packets,
    /// all later ones are as the first: more bytes aren't at hand, or don't pay for their room.
    pub fn behind(self, read: usize, packets: usize) -> ReadSize
        ensures bytes { result.bytes ≡ if grows_behind self.many self.bytes read packets then min (2 * self.bytes) 8388608 else 65536 }
        ensures many { result.many ≡ if grows_behind self.many self.bytes read packets then self.many else None }
    {
        if !self.grows(read, packets) {
            return ReadSize::first(None);
        }
        ReadSize {
            bytes: (2 * self.bytes).min(MOST_READ),
            many: self.many,
        }
    }

    /// This one, but of so many bytes at most.
    pub fn within(self, most: usize) -> ReadSize
        requires { 1 ≤ most }
        ensures bytes { result.bytes ≡ min self.bytes most }
        ensures many { result.many ≡ self.many }
    {
        ReadSize {
            bytes: self.bytes.min(most),
            many: self.many,
        }
    }
}

// Room with these bytes at its front, for so many more.
fn room_behind(alloc: Global, held: &[u8], most: usize) -> Result<Vec<u8>, AllocError>
    requires { length held.now + most < 2 ^ 63 }
    ensures held { IfOk result (λ room. take (length held.now) room.items ≡ held.now) }
    ensures size { IfOk result (λ room. length room.items ≡ length held.now + most) }
{
    let mut room = Vec::new(alloc);
    room.resize(held.len() + most, 0)?;
    room[0..held.len()].copy_from_slice(held);
    Ok(room)
}

/// These bytes, and behind them those that one read gives, so many at most, and none only at the source's end: how many they are.
pub fn read_behind<R: Source>(
    alloc: Global,
    held: &[u8],
    reader: &mut R,
    most: usize,
) -> Result<(Vec<u8>, usize), Fault>
    requires some { 1 ≤ most }
    requires few { length held.now + most < 2 ^ 63 }
    requires sound { R.failures reader.old < 2 ^ 64 - 1 }
    ensures gained { IfOk result (λ r. HasGained (R.bytes reader.old) (R.bytes reader.new) held.now r.0.items (length held.now + most) r.1) }
    ensures kept { IfErr result (λ _. Keeps (R.bytes reader.old) (R.bytes reader.new)) }
    ensures faults { IfErr result (λ fault. (fault ≡ Memory) ⊎ (fault ≡ Read)) }
    ensures failures { MatchResult result (λ _. R.failures reader.new ≡ R.failures reader.old) (λ fault. R.failures reader.new ≡ with_read (R.failures reader.old) fault) }
{
    let Ok(mut room) = room_behind(alloc, held, most) else {
        return Err(Fault::Memory);
    };
    let start = held.len();
    let end = start + most;
    let Ok(n) = reader.read(&mut room[start..end]) else {
        return Err(Fault::Read);
    };
    room.truncate(start + n);
    Ok((room, n))
}
