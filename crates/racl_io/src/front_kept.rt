//! The first bytes that a reader gives.
ghost use Rattle.std.specs.Prelude.{◌≤◌};

use std::io;
use std::io::Read;

/// How many first bytes are kept: the header of a capture, and some records.
const FRONT: usize = 4096;

/// A reader that keeps the first bytes that it gives.
#[derive(Drop)]
pub struct FrontKept<R> {
    pub inner: R,
    front: [u8; FRONT],
    /// How many of them it gave.
    count: usize,
    ghost within: { count ≤ 4096 },
}

impl<R> FrontKept<R> {
    ghost use Rattle.std.specs.Prelude.{◌≡◌, [], ◌++◌, take};
    ghost use Rattle.racl_io.specs.Fronts.{front_of};

    /// A reader of which no first bytes are kept yet.
    pub fn new(inner: R) -> FrontKept<R>
        ensures inner { result.inner ≡ inner }
        ensures front { front_of result ≡ [] }
    {
        FrontKept {
            inner,
            front: [0; FRONT],
            count: 0,
        }
    }

    // Keeps the first of these bytes, as far as there is room behind those that were kept.
    fn keep(&mut self, bytes: &[u8])
        ensures inner { self.new.inner ≡ self.old.inner }
        ensures front { front_of self.new ≡ take 4096 (front_of self.old ++ bytes.now) }
    {
        let start = self.count;
        let end = start + bytes.len().min(FRONT - start);
        self.front[start..end].copy_from_slice(&bytes[..end - start]);
        self.count = end;
    }

    /// The first bytes that it gave.
    pub fn front(&self) -> &[u8]
        ensures { result.now ≡ front_of self.now }
    {
        &self.front[..self.count]
    }
}

impl<R: Read> Read for FrontKept<R> {
    ghost use Rattle.std.specs.Prelude.{◌≡◌, ◌++◌, IfOk, take};
    ghost use Rattle.std.specs.Io.{ReadsAtMost};
    ghost use Rattle.std.specs.Io.KnownBytes.{ReadConsumes};
    ghost use Rattle.racl_io.specs.Fronts.{front_of};

    ghost remaining = { λ k. R.remaining k.inner };

    fn read(&mut self, buf: &mut [u8]) -> io::Result<usize>
        ensures bound { ReadsAtMost result buf.new }
        ensures bytes { ReadConsumes (R.remaining self.old.inner) (R.remaining self.new.inner) result buf.new }
        ensures front { IfOk result (λ n. front_of self.new ≡ take 4096 (front_of self.old ++ take n buf.new)) }
    {
        let n = self.inner.read(buf)?;
        self.keep(&buf[..n]);
        Ok(n)
    }
}
