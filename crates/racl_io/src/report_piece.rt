//! A piece of a report's text, in room that is asked for once.
ghost use Rattle.std.specs.Prelude.{◌≡◌, ℕ, List, [], ◌+◌, ◌≤◌, ◌++◌, IfOk, length, take};

use std::alloc::{AllocError, Global};
use std::marker::Model;

/// The most bytes of a piece.
const ROOM: usize = 262_144;

/// Bytes in room for 256 KiB, all of which is filled from the start: so a push stores bytes and counts them.
#[derive(Drop)]
pub struct Piece {
    room: Vec<u8>,
    len: usize,
}

impl Model for Piece {
    ghost Value = { List ℕ };

    ghost view = { λ p. take p.len p.room.items };

    ghost invariant = { λ p. (length p.room.items ≡ 262144) × (p.len ≤ 262144) };
}

impl Piece {
    pub fn new(alloc: Global) -> Result<Piece, AllocError>
        ensures { IfOk result (λ p. p ≡ []) }
    {
        let room = Vec::from_elem(alloc, 0, ROOM)?;
        Ok(Piece { room, len: 0 })
    }

    #[inline(always)]
    pub fn push(&mut self, bytes: &[u8])
        requires { length self.old + length bytes.now ≤ 262144 }
        ensures { self.new ≡ self.old ++ bytes.now }
    {
        self.push_first(bytes, bytes.len());
    }

    /// Pushes the first bytes of these. All of them are copied, so that a length that is fixed makes it cheap.
    #[inline(always)]
    pub fn push_first(&mut self, bytes: &[u8], count: usize)
        requires room { length self.old + length bytes.now ≤ 262144 }
        requires within { count ≤ length bytes.now }
        ensures { self.new ≡ self.old ++ take count bytes.now }
    {
        let len = self.len;
        self.room[len..len + bytes.len()].copy_from_slice(bytes);
        self.len = len + count;
    }

    pub fn clear(&mut self)
        ensures { self.new ≡ [] }
    {
        self.len = 0;
    }

    pub fn as_slice(&self) -> &[u8]
        ensures { result.now ≡ self.now }
    {
        &self.room[..self.len]
    }
}
