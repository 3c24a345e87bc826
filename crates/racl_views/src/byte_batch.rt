//! Bytes that are gathered before they are written.
ghost use Rattle.std.specs.Prelude.{◌≡◌, ◌-◌, ◌<◌, ◌^◌, []};
ghost use Rattle.racl_views.specs.inner.Batches.{HasPassed, bytes_where};

use racl_io::{Fault, Sink, write_all};
use std::marker::Model;

/// How many bytes are gathered. They stand on the stack.
const ROOM: usize = 65_536;

/// Bytes that wait to be written, in room for 64 KiB.
#[derive(Drop)]
pub struct ByteBatch {
    room: [u8; ROOM],
    len: usize,
}

impl Model for ByteBatch {
    ghost use Rattle.std.specs.Prelude.{◌≡◌, ◌≤◌, ℕ, List, length, take};

    ghost Value = { List ℕ };

    ghost view = { λ b. take b.len b.room };

    ghost invariant = { λ b. (length b.room ≡ 65536) × (b.len ≤ 65536) };
}

impl ByteBatch {
    ghost use Rattle.std.specs.Prelude.{◌≡◌, ◌+◌, ◌≤◌, ◌++◌, [], IsTrue, ◌↔◌, length};

    /// No bytes are gathered yet.
    pub fn new() -> ByteBatch
        ensures { result ≡ [] }
    {
        ByteBatch {
            room: [0; ROOM],
            len: 0,
        }
    }

    // Whether so many bytes more can be gathered.
    fn has_room(&self, count: usize) -> bool
        ensures { IsTrue result ↔ (length self.now + count ≤ 65536) }
    {
        count <= ROOM - self.len
    }

    // Gathers these bytes behind those that wait, for which there is room.
    fn push(&mut self, bytes: &[u8])
        requires { length self.old + length bytes.now ≤ 65536 }
        ensures { self.new ≡ self.old ++ bytes.now }
    {
        let len = self.len;
        let end = len + bytes.len();
        self.room[len..end].copy_from_slice(bytes);
        self.len = end;
    }

    // Drops the gathered bytes when they were written.
    fn clear(&mut self)
        ensures { self.new ≡ [] }
    {
        self.len = 0;
    }

    /// The gathered bytes, which wait to be written.
    pub fn as_slice(&self) -> &[u8]
        ensures { result.now ≡ self.now }
    {
        &self.room[..self.len]
    }
}

// Gathers a batch's first bytes, where none wait; more than have room are written at once.
fn put_first<W: Sink>(writer: &mut W, batch: &mut ByteBatch, bytes: &[u8]) -> Result<(), Fault>
    requires sound { W.failures writer.old < 2 ^ 64 - 1 }
    requires empty { batch.old ≡ [] }
    ensures { HasPassed W.bytes W.failures writer.old writer.new batch.old batch.new bytes.now result }
{
    if !batch.has_room(bytes.len()) {
        return write_all(writer, bytes);
    }
    batch.push(bytes);
    Ok(())
}

// Gathers bytes behind those that wait; where they have no room, those are written.
fn put_in_batch<W: Sink>(writer: &mut W, batch: &mut ByteBatch, bytes: &[u8]) -> Result<(), Fault>
    requires sound { W.failures writer.old < 2 ^ 64 - 1 }
    ensures { HasPassed W.bytes W.failures writer.old writer.new batch.old batch.new bytes.now result }
{
    if batch.has_room(bytes.len()) {
        batch.push(bytes);
        return Ok(());
    }
    write_all(writer, batch.as_slice())?;
    batch.clear();
    put_first(writer, batch, bytes)
}

/// Gathers bytes behind those that wait, where they are kept.
pub fn put_where<W: Sink>(
    writer: &mut W,
    batch: &mut ByteBatch,
    kept: bool,
    bytes: &[u8],
) -> Result<(), Fault>
    requires sound { W.failures writer.old < 2 ^ 64 - 1 }
    ensures { HasPassed W.bytes W.failures writer.old writer.new batch.old batch.new (bytes_where kept bytes.now) result }
{
    if kept {
        return put_in_batch(writer, batch, bytes);
    }
    Ok(())
}
