//! A small shape for tests.
ghost use Rattle.std.specs.Prelude.{refl, slice_index};

use crate::shape::Shape;

/// A table of `P` pages and two buckets, each of which takes `L` changes and 16 pairs. A key's hash is
/// its first word.
#[derive(Clone, Copy)]
pub struct Tiny<const P: u64, const L: u64>;

impl<const P: u64, const L: u64> Shape for Tiny<P, L> {
    const WORDS: usize = 2;

    const LOG2_BUCKETS: u64 = 1;

    const PAGES: u64 = P;

    const MAX_LOG2: u64 = 2;

    const LIMIT: u64 = L;

    const CALLERS: u64 = 64;

    type Key = [u64; 2];

    ghost WORDS = { 2 };

    ghost LOG2_BUCKETS = { 1 };

    ghost PAGES = { P };

    ghost MAX_LOG2 = { 2 };

    ghost LIMIT = { L };

    ghost CALLERS = { 64 };

    ghost words_of = { λ k. k };

    ghost key_of = { λ w. w };

    ghost hash_of_words = { λ w. slice_index w 0 };

    ghost key_of_words = { λ k. refl };

    ghost words_of_key = { λ w counted. refl };

    fn hash(key: &[u64; 2]) -> u64 {
        key[0]
    }

    fn word(key: &[u64; 2], i: usize) -> u64 {
        key[i]
    }

    fn key(words: &[u64]) -> [u64; 2] {
        [words[0], words[1]]
    }
}
