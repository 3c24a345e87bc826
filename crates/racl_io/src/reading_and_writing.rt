//! Input from a source, up to so many bytes or to its end, and a whole report to a sink.
ghost use Rattle.std.specs.Prelude.{◌≡◌, ◌+◌, ◌-◌, ◌<◌, ◌≤◌, ◌^◌, ◌⊎◌, ◌++◌, IfOk, IfErr, IsErrOf, OnOk, OnErr, length, vec_capacity, vec_len};
ghost use Rattle.std.specs.Io.KnownBytes.{Appends};
ghost use Rattle.racl_io.specs.Inputs.{most_bytes};
ghost use Rattle.racl_io.specs.Sinks.{GotFront};
ghost use Rattle.racl_io.specs.Transfers.{HasDrained, HasRead, HasReadWithin};
ghost use Rattle.racl_io.specs.declared.fault.Fault.TheVariants.{Memory, Read, Write};

use crate::device::{Sink, Source};
use crate::fault::Fault;
use std::alloc::AllocError;

/// The most bytes of an input.
pub const MOST_BYTES: usize = 67_108_864;

/// How many bytes are asked for at once. They stand on the stack first, so that a small one is enough.
const PART_BYTES: usize = 32_768;

/// Up to how many bytes the room of what is read grows by doubling. More bytes, where there is no room for them, get room
/// for the most at once: so none of them are moved again, and pages are touched only where bytes come.
const SMALL_BYTES: usize = 1_048_576;

// Keeps bytes that reading an input gave, behind those that were there.
fn keep_while_reading(all: &mut Vec<u8>, bytes: &[u8]) -> Result<(), AllocError>
    requires { vec_len all.old ≤ most_bytes }
    ensures items { OnOk result (all.new.items ≡ all.old.items ++ bytes.now) }
    ensures room { vec_capacity all.old ≤ vec_capacity all.new }
    ensures memory { OnErr result (vec_capacity all.old < vec_len all.old + length bytes.now) }
{
    if all.len() >= SMALL_BYTES && all.capacity() - all.len() < bytes.len() {
        all.reserve_exact(MOST_BYTES + 1 - all.len())?;
    }
    all.extend_from_slice(bytes)?;
    Ok(())
}

/// Reads from a source, behind the bytes that are there, until these are so many, and answers `true` where a read gives
/// no byte before that. No more bytes are asked for. Where there is no memory, bytes that were read are lost.
pub fn read_until<R: Source>(reader: &mut R, all: &mut Vec<u8>, least: usize) -> Result<bool, Fault>
    requires sound { R.failures reader.old < 2 ^ 64 - 1 }
    requires few { least ≤ most_bytes + 1 }
    ensures read { IfOk result (HasRead (R.bytes reader.old) (R.bytes reader.new) all.old.items all.new.items least) }
    ensures within { HasReadWithin R.bytes R.failures (least - length all.old.items) reader.old reader.new result }
    ensures faults { IfErr result (λ e. (e ≡ Memory) ⊎ (e ≡ Read)) }
    ensures memory { IsErrOf result Fault.Memory → vec_capacity all.old < least }
    ensures room { vec_capacity all.old ≤ vec_capacity all.new }
{
    let mut room = [0u8; PART_BYTES];
    'reading: while all.len() < least {
        let asked = (least - all.len()).min(PART_BYTES);
        let part = &mut room[..asked];
        let Ok(n) = reader.read(part) else {
            return Err(Fault::Read);
        };
        if n == 0 {
            return Ok(true);
        }
        keep_while_reading(all, &part[..n])?;
    }
    Ok(false)
}

/// Reads on after so many bytes, until a read gives no byte or these are too many, and keeps nothing.
pub fn drain<R: Source>(reader: &mut R, read: usize) -> Result<(), Fault>
    requires sound { R.failures reader.old < 2 ^ 64 - 1 }
    requires few { read ≤ most_bytes }
    ensures read { HasDrained (R.bytes reader.old) (R.bytes reader.new) read result }
    ensures within { HasReadWithin R.bytes R.failures (most_bytes + 1 - read) reader.old reader.new result }
{
    let mut room = [0u8; PART_BYTES];
    let mut total = read;
    'reading: while total <= MOST_BYTES {
        let asked = (MOST_BYTES + 1 - total).min(PART_BYTES);
        match reader.read(&mut room[..asked]) {
            Ok(0) => return Ok(()),
            Ok(n) => total += n,
            Err(_) => return Err(Fault::Read),
        }
    }
    Err(Fault::TooLarge)
}

/// Writes all bytes; a write that takes none counts as a failed one.
pub fn write_all<W: Sink>(writer: &mut W, bytes: &[u8]) -> Result<(), Fault>
    requires { W.failures writer.old < 2 ^ 64 - 1 }
    ensures whole { OnOk result (Appends (W.bytes writer.old) (W.bytes writer.new) bytes.now) }
    ensures ok { OnOk result (W.failures writer.new ≡ W.failures writer.old) }
    ensures failed { OnErr result (W.failures writer.new ≡ W.failures writer.old + 1) }
    ensures fault { IfErr result (λ e. e ≡ Write) }
    ensures front { OnErr result (GotFront (W.bytes writer.old) (W.bytes writer.new) bytes.now) }
{
    let mut rest = bytes;
    while !rest.is_empty() {
        match writer.write(rest) {
            Ok(n) => {
                if n == 0 {
                    return Err(Fault::Write);
                }
                rest = &rest[n..];
            }
            Err(_) => return Err(Fault::Write),
        }
    }
    Ok(())
}
