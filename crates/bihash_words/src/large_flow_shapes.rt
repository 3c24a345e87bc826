//! The shapes of large tables of IPv4 and IPv6 flows.
ghost use Rattle.std.specs.Prelude.{refl};
ghost use Rattle.bihash_words.specs.Hash.{hash_of};

use crate::flow_shapes::{ShapeV4, ShapeV6};
use crate::shape::Shape;

/// The large table of IPv4 flows: keys of two words, 65,536 buckets, at most 256 pairs in each.
#[derive(Clone, Copy)]
pub struct LargeV4;

impl Shape for LargeV4 {
    const WORDS: usize = 2;

    const LOG2_BUCKETS: u64 = 16;

    const PAGES: u64 = 262144;

    const MAX_LOG2: u64 = 6;

    const LIMIT: u64 = 8589934591;

    const CALLERS: u64 = 65535;

    type Key = [u64; 2];

    ghost WORDS = { 2 };

    ghost LOG2_BUCKETS = { 16 };

    ghost PAGES = { 262144 };

    ghost MAX_LOG2 = { 6 };

    ghost LIMIT = { 8589934591 };

    ghost CALLERS = { 65535 };

    ghost words_of = { λ k. k };

    ghost key_of = { λ w. w };

    ghost hash_of_words = { hash_of };

    ghost key_of_words = { λ k. refl };

    ghost words_of_key = { λ w counted. refl };

    fn hash(key: &[u64; 2]) -> u64 {
        ShapeV4::hash(key)
    }

    fn word(key: &[u64; 2], i: usize) -> u64 {
        key[i]
    }

    fn key(words: &[u64]) -> [u64; 2] {
        [words[0], words[1]]
    }
}

/// The large table of IPv6 flows: keys of five words, 65,536 buckets, at most 256 pairs in each.
#[derive(Clone, Copy)]
pub struct LargeV6;

impl Shape for LargeV6 {
    const WORDS: usize = 5;

    const LOG2_BUCKETS: u64 = 16;

    const PAGES: u64 = 262144;

    const MAX_LOG2: u64 = 6;

    const LIMIT: u64 = 8589934591;

    const CALLERS: u64 = 65535;

    type Key = [u64; 5];

    ghost WORDS = { 5 };

    ghost LOG2_BUCKETS = { 16 };

    ghost PAGES = { 262144 };

    ghost MAX_LOG2 = { 6 };

    ghost LIMIT = { 8589934591 };

    ghost CALLERS = { 65535 };

    ghost words_of = { λ k. k };

    ghost key_of = { λ w. w };

    ghost hash_of_words = { hash_of };

    ghost key_of_words = { λ k. refl };

    ghost words_of_key = { λ w counted. refl };

    fn hash(key: &[u64; 5]) -> u64 {
        ShapeV6::hash(key)
    }

    fn word(key: &[u64; 5], i: usize) -> u64 {
        key[i]
    }

    fn key(words: &[u64]) -> [u64; 5] {
        [words[0], words[1], words[2], words[3], words[4]]
    }
}
