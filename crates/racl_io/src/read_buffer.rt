//! Bytes that were read, at the front of a buffer.
ghost use Rattle.std.specs.Prelude.{◌≤◌, vec_len};

use crate::device::Source;
use crate::fault::Fault;
use std::alloc::AllocError;

/// How many bytes are asked for at once, and get room at first: half of what a pipe holds, so that who writes into it goes on
/// meanwhile.
const PART_BYTES: usize = 32_768;

/// Bytes at the front of room for more, which is kept and used again.
#[derive(Drop)]
pub struct ReadBuffer {
    room: Vec<u8>,
    /// How many bytes it holds.
    count: usize,
    ghost within: { count ≤ vec_len room },
}

impl ReadBuffer {
    ghost use Rattle.std.specs.Prelude.{◌≡◌, ◌+◌, ◌-◌, ◌<◌, ◌≤◌, ◌^◌, ◌⊎◌, IfOk, IfErr, IsErrOf, OnOk, OnErr, length, vec_len};
    ghost use Rattle.std.specs.Io.KnownBytes.{Keeps};
    ghost use Rattle.racl_io.specs.Buffers.{held_by, room_in};
    ghost use Rattle.racl_io.specs.Inputs.{most_bytes};
    ghost use Rattle.racl_io.specs.Transfers.{HasGained, HasRead, HasReadWithin};
    ghost use Rattle.racl_io.specs.declared.fault.Fault.TheVariants.{Memory, Read};

    /// Holds these bytes, and has no room for more yet.
    pub fn new(bytes: Vec<u8>) -> ReadBuffer
        ensures { held_by result ≡ bytes.items }
    {
        let count = bytes.len();
        ReadBuffer { room: bytes, count }
    }

    /// The bytes that it holds.
    pub fn bytes(&self) -> &[u8]
        ensures { result.now ≡ held_by self.now }
    {
        &self.room[..self.count]
    }

    // Grows to room for so many bytes, where it has less.
    fn grow(&mut self, all: usize) -> Result<(), AllocError>
        ensures held { held_by self.new ≡ held_by self.old }
        ensures some { OnOk result (all ≤ vec_len self.new.room) }
        ensures memory { OnErr result (room_in self.old < all) }
        ensures room { room_in self.old ≤ room_in self.new }
    {
        if all <= self.room.len() {
            return Ok(());
        }
        self.room.resize(all, 0)
    }

    /// Holds these bytes alone.
    pub fn hold(&mut self, bytes: &[u8]) -> Result<(), AllocError>
        ensures held { OnOk result (held_by self.new ≡ bytes.now) }
        ensures memory { OnErr result (room_in self.old < length bytes.now) }
        ensures room { room_in self.old ≤ room_in self.new }
    {
        let count = bytes.len();
        self.grow(count)?;
        self.room[0..count].copy_from_slice(bytes);
        self.count = count;
        Ok(())
    }

    // Makes room behind the bytes where there is none: for as many again, but for no more than so many in all.
    fn make_room(&mut self, most: usize) -> Result<(), AllocError>
        requires { length (held_by self.old) < most }
        ensures held { held_by self.new ≡ held_by self.old }
        ensures some { OnOk result (length (held_by self.new) < vec_len self.new.room) }
        ensures memory { OnErr result (room_in self.old < most) }
        ensures room { room_in self.old ≤ room_in self.new }
    {
        if self.count < self.room.len() {
            return Ok(());
        }
        let more = self.count.max(PART_BYTES).min(most - self.count);
        self.grow(self.count + more)
    }

    /// Reads some bytes behind those that it holds, so many in all at most, and none only at the end: how many they are.
    pub fn read_some<R: Source>(&mut self, reader: &mut R, most: usize) -> Result<usize, Fault>
        requires some { length (held_by self.old) < most }
        requires sound { R.failures reader.old < 2 ^ 64 - 1 }
        ensures gained { IfOk result (HasGained (R.bytes reader.old) (R.bytes reader.new) (held_by self.old) (held_by self.new) most) }
        ensures within { HasReadWithin R.bytes R.failures (most - length (held_by self.old)) reader.old reader.new result }
        ensures kept { IfErr result (λ _. Keeps (R.bytes reader.old) (R.bytes reader.new)) }
        ensures faults { IfErr result (λ e. (e ≡ Memory) ⊎ (e ≡ Read)) }
        ensures memory { IsErrOf result Fault.Memory → room_in self.old < most }
        ensures room { room_in self.old ≤ room_in self.new }
    {
        self.make_room(most)?;
        let start = self.count;
        let left = self.room.len().min(most) - start;
        let end = start + left.min(PART_BYTES);
        let Ok(n) = reader.read(&mut self.room[start..end]) else {
            return Err(Fault::Read);
        };
        self.count = start + n;
        Ok(n)
    }

    /// Reads until it holds so many bytes, and answers `true` where a read gives no byte before that. No more bytes are asked
    /// for.
    pub fn read_until<R: Source>(&mut self, reader: &mut R, least: usize) -> Result<bool, Fault>
        requires sound { R.failures reader.old < 2 ^ 64 - 1 }
        requires few { least ≤ most_bytes + 1 }
        ensures read { IfOk result (HasRead (R.bytes reader.old) (R.bytes reader.new) (held_by self.old) (held_by self.new) least) }
        ensures within { HasReadWithin R.bytes R.failures (least - length (held_by self.old)) reader.old reader.new result }
        ensures faults { IfErr result (λ e. (e ≡ Memory) ⊎ (e ≡ Read)) }
        ensures memory { IsErrOf result Fault.Memory → room_in self.old < least }
        ensures room { room_in self.old ≤ room_in self.new }
    {
        'reading: while self.bytes().len() < least {
            if self.read_some(reader, least)? == 0 {
                return Ok(true);
            }
        }
        Ok(false)
    }
}
