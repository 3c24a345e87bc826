//! What parts a capture into its records while it is read.
ghost use Rattle.std.specs.Prelude.{◌<◌, ◌^◌, MatchResult};
ghost use Rattle.capture_stream.specs.inner.Partings.{IsCutAt, IsLongAt};

use crate::found_records::{Found, find_records};
use crate::live_read_sizes::{ReadSize, read_behind};
use packet_view::{Order, Stop};
use racl_io::{Fault, ReadBuffer, Source};
use std::alloc::{AllocError, Global};
use std::mem::swap;

/// What parts a capture's bytes into records while they are read.
#[derive(Drop)]
pub struct RecordParting {
    /// The order of the capture's numbers.
    pub order: Order,
    /// The number of the interface where its packets were seen.
    pub interface: u8,
    /// The bytes that were read and are behind the last record that was parted off.
    pub window: ReadBuffer,
    /// The records among them.
    pub found: Found,
    /// Room for the next window.
    pub spare: ReadBuffer,
    /// How many records were parted off.
    pub packets: usize,
}

/// Whether a capture that ends here, where its records stop after so many packets, ends within one.
pub fn is_cut(stop: Stop, packets: usize) -> Result<bool, Fault>
    requires { packets < 2 ^ 63 }
    ensures { MatchResult result (IsCutAt stop) (IsLongAt stop packets) }
{
    match stop {
        Stop::End => Ok(false),
        Stop::Truncated => Ok(true),
        Stop::TooLong => Err(Fault::LongRecord(packets as u64 + 1)),
    }
}

impl RecordParting {
    ghost use Rattle.std.specs.Prelude.{◌≡◌, ◌+◌, ◌-◌, ◌<◌, ◌≤◌, ◌^◌, IfOk, MatchResult, length};
    ghost use Rattle.capture_stream.specs.Found.{HaveFound};
    ghost use Rattle.capture_stream.specs.Lives.{with_read};
    ghost use Rattle.capture_stream.specs.Parting.{HasSettled, rest_in};
    ghost use Rattle.capture_stream.specs.inner.Partings.{HasGot, IsBegun, IsLost, IsUnread};
    ghost use Rattle.racl_io.specs.Inputs.{most_bytes};

    /// One of a capture that was taken at this interface, where these bytes wait, and no record was parted off.
    pub fn new(alloc: Global, order: Order, interface: u8, front: Vec<u8>) -> RecordParting
        ensures { IsBegun order interface front.items result }
    {
        let window = ReadBuffer::new(front);
        let found = find_records(window.bytes(), order);
        RecordParting {
            order,
            interface,
            window,
            found,
            spare: ReadBuffer::new(Vec::new(alloc)),
            packets: 0,
        }
    }

    /// All whole records that wait are parted off: they are at hand in the spare room until the next read, and which they are is
    /// answered. What is behind them waits.
    pub fn settle(&mut self) -> Result<Found, AllocError>
        requires found { HaveFound self.old.order (rest_in self.old) self.old.found }
        requires few { self.old.packets + length (rest_in self.old) < 2 ^ 63 }
        ensures { IfOk result (HasSettled self.old self.new) }
    {
        let bytes = self.window.bytes();
        let found = self.found;
        self.spare.hold(&bytes[bytes.len() - found.behind..])?;
        self.packets += found.count;
        swap(&mut self.window, &mut self.spare);
        self.found = find_records(self.window.bytes(), self.order);
        Ok(found)
    }

    // Reads some bytes behind those that wait, so many at most, and none only at the source's end: how many they are.
    fn read_some<R: Source>(&mut self, reader: &mut R, most: usize) -> Result<usize, Fault>
        requires some { 1 ≤ most }
        requires few { length (rest_in self.old) + most < 2 ^ 63 }
        requires sound { R.failures reader.old < 2 ^ 64 - 1 }
        ensures got { MatchResult result (HasGot (R.bytes reader.old) (R.bytes reader.new) self.old self.new most) (IsUnread (R.bytes reader.old) (R.bytes reader.new)) }
        ensures failures { MatchResult result (λ _. R.failures reader.new ≡ R.failures reader.old) (λ fault. R.failures reader.new ≡ with_read (R.failures reader.old) fault) }
    {
        let most = self.window.bytes().len() + most;
        match self.window.read_some(reader, most) {
            Ok(n) => {
                self.found = find_records(self.window.bytes(), self.order);
                Ok(n)
            }
            Err(fault) => Err(fault),
        }
    }

    /// Reads bytes behind those that wait until so many came, or the source is at its end: how many they are. Where it fails, bytes
    /// that were read before are lost.
    pub fn fill<R: Source>(&mut self, reader: &mut R, most: usize) -> Result<usize, Fault>
        requires some { 1 ≤ most }
        requires few { length (rest_in self.old) + most ≤ most_bytes + 1 }
        requires sound { R.failures reader.old < 2 ^ 64 - 1 }
        ensures got { MatchResult result (HasGot (R.bytes reader.old) (R.bytes reader.new) self.old self.new most) (IsLost most (R.bytes reader.old) (R.bytes reader.new)) }
        ensures failures { MatchResult result (λ _. R.failures reader.new ≡ R.failures reader.old) (λ fault. R.failures reader.new ≡ with_read (R.failures reader.old) fault) }
    {
        let held = self.window.bytes().len();
        match self.window.read_until(reader, held + most) {
            Ok(_) => {
                self.found = find_records(self.window.bytes(), self.order);
                Ok(self.window.bytes().len() - held)
            }
            Err(fault) => Err(fault),
        }
    }

    /// Reads some bytes behind those that wait by one read of this size, and none only at the source's end: how many they are.
    /// Where reads grow, the records that were parted off last are at hand no longer.
    pub fn read_part<R: Source>(
        &mut self,
        alloc: Global,
        reader: &mut R,
        size: ReadSize,
    ) -> Result<usize, Fault>
        requires few { length (rest_in self.old) + 8388608 < 2 ^ 63 }
        requires sound { R.failures reader.old < 2 ^ 64 - 1 }
        ensures got { MatchResult result (HasGot (R.bytes reader.old) (R.bytes reader.new) self.old self.new size.bytes) (IsUnread (R.bytes reader.old) (R.bytes reader.new)) }
        ensures failures { MatchResult result (λ _. R.failures reader.new ≡ R.failures reader.old) (λ fault. R.failures reader.new ≡ with_read (R.failures reader.old) fault) }
    {
        if size.many.is_none() {
            return self.read_some(reader, size.bytes);
        }
        // (the room of what was parted off is given back first, so that there is never room for two such reads)
        self.spare = ReadBuffer::new(Vec::new(alloc));
        match read_behind(alloc, self.window.bytes(), reader, size.bytes) {
            Ok((bytes, n)) => {
                self.window = ReadBuffer::new(bytes);
                self.found = find_records(self.window.bytes(), self.order);
                Ok(n)
            }
            Err(fault) => Err(fault),
        }
    }
}
