//! The shapes of the tables of IPv4 and IPv6 flows.
ghost use Rattle.std.specs.Prelude.{refl};
ghost use Rattle.bihash_words.specs.Hash.{hash_of};

use crate::hash::hash_words;
use crate::shape::Shape;

/// The table of IPv4 flows: keys of two words, 4096 buckets, at most 256 pairs in each.
#[derive(Clone, Copy)]
pub struct ShapeV4;

impl Shape for ShapeV4 {
    const WORDS: usize = 2;

    const LOG2_BUCKETS: u64 = 12;

    const PAGES: u64 = 16384;

    const MAX_LOG2: u64 = 6;

    const LIMIT: u64 = 8589934591;

    const CALLERS: u64 = 65535;

    type Key = [u64; 2];

    ghost WORDS = { 2 };

    ghost LOG2_BUCKETS = { 12 };

    ghost PAGES = { 16384 };

    ghost MAX_LOG2 = { 6 };

    ghost LIMIT = { 8589934591 };

    ghost CALLERS = { 65535 };

    ghost words_of = { λ k. k };

    ghost key_of = { λ w. w };

    ghost hash_of_words = { hash_of };

    ghost key_of_words = { λ k. refl };

    ghost words_of_key = { λ w counted. refl };

    fn hash(key: &[u64; 2]) -> u64 {
        hash_words(key)
    }

    fn word(key: &[u64; 2], i: usize) -> u64 {
        key[i]
    }

    fn key(words: &[u64]) -> [u64; 2] {
        [words[0], words[1]]
    }
}

/// The table of IPv6 flows: keys of five words, 1024 buckets, at most 256 pairs in each.
#[derive(Clone, Copy)]
pub struct ShapeV6;

impl Shape for ShapeV6 {
    const WORDS: usize = 5;

    const LOG2_BUCKETS: u64 = 10;

    const PAGES: u64 = 4096;

    const MAX_LOG2: u64 = 6;

    const LIMIT: u64 = 8589934591;

    const CALLERS: u64 = 65535;

    type Key = [u64; 5];

    ghost WORDS = { 5 };

    ghost LOG2_BUCKETS = { 10 };

    ghost PAGES = { 4096 };

    ghost MAX_LOG2 = { 6 };

    ghost LIMIT = { 8589934591 };

    ghost CALLERS = { 65535 };

    ghost words_of = { λ k. k };

    ghost key_of = { λ w. w };

    ghost hash_of_words = { hash_of };

    ghost key_of_words = { λ k. refl };

    ghost words_of_key = { λ w counted. refl };

    fn hash(key: &[u64; 5]) -> u64 {
        hash_words(key)
    }

    fn word(key: &[u64; 5], i: usize) -> u64 {
        key[i]
    }

    fn key(words: &[u64]) -> [u64; 5] {
        [words[0], words[1], words[2], words[3], words[4]]
    }
}
