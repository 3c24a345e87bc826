//! Where a key belongs.
ghost use Rattle.std.specs.Prelude.{◌≡◌, ◌-◌, ◌/◌, ◌%◌, ◌^◌, ◌<◌, ◌≤◌, length, slice_index};
ghost use Rattle.bihash_words.specs.Sizes.{IsSound, sizes_of};
ghost use Rattle.bihash_words.specs.Pages.{page_of, word_paging};
ghost use Rattle.bihash_rule.specs.Words.{buckets};
ghost use Rattle.bihash_rule.specs.Histories.{bucket_of};

use crate::key_with_hash::KeyWithHash;
use bihash_words::{BucketWord, Shape};

/// A key with what its hash and its words tell: the bucket, the bits after those that name it, which
/// name the page, and the last word. A call makes it once.
#[derive(Drop)]
pub(crate) struct HashedKey<'k, S: Shape> {
    pub(crate) bucket: usize,
    pub(crate) page_bits: u64,
    pub(crate) last: u64,
    pub(crate) key: &'k S::Key,
    ghost home: { bucket ≡ S.hash_of_words (S.words_of key.now) % 2 ^ S.LOG2_BUCKETS },
    ghost paged: { page_bits ≡ S.hash_of_words (S.words_of key.now) / 2 ^ S.LOG2_BUCKETS },
    ghost ends: { last ≡ slice_index (S.words_of key.now) (S.WORDS - 1) },
    ghost counted: { length (S.words_of key.now) ≡ S.WORDS },
}

/// A bucket that was seen without its lock, for a key: the word that it was seen with.
#[derive(Drop)]
pub(crate) struct SeenBucket<'k, S: Shape> {
    pub(crate) word: BucketWord,
    pub(crate) hashed: HashedKey<'k, S>,
}

impl<'k, S: Shape> HashedKey<'k, S> {
    /// Where this key belongs.
    pub(crate) fn of(key: &'k S::Key) -> HashedKey<'k, S>
        requires { IsSound (sizes_of S.Shape) }
        ensures key { result.key.now ≡ key.now }
        ensures home { bucket_of (sizes_of S.Shape) (S.words_of key.now) ≡ result.bucket }
        ensures counted { length (S.words_of key.now) ≡ S.WORDS }
        ensures inside { result.bucket < buckets (sizes_of S.Shape) }
    {
        HashedKey::with_hash(&KeyWithHash::of(key))
    }

    /// Where this key belongs, whose hash is known.
    pub(crate) fn with_hash(known: &KeyWithHash<'k, S>) -> HashedKey<'k, S>
        requires { IsSound (sizes_of S.Shape) }
        ensures key { result.key.now ≡ known.now.key.now }
        ensures home { bucket_of (sizes_of S.Shape) (S.words_of known.now.key.now) ≡ result.bucket }
        ensures counted { length (S.words_of known.now.key.now) ≡ S.WORDS }
        ensures inside { result.bucket < buckets (sizes_of S.Shape) }
    {
        let (key, hash) = (known.key, known.hash);
        HashedKey {
            bucket: (hash % (1u64 << S::LOG2_BUCKETS)) as usize,
            page_bits: hash >> S::LOG2_BUCKETS,
            last: S::word(key, S::WORDS - 1),
            key,
        }
    }

    /// The page that the key's hash names in a block of `2^log2` pages.
    pub(crate) fn page(&self, log2: u64) -> usize
        requires sound { IsSound (sizes_of S.Shape) }
        requires small { log2 ≤ S.MAX_LOG2 }
        ensures page { result ≡ page_of (word_paging (sizes_of S.Shape)) log2 (S.words_of self.now.key.now) }
        ensures inside { result < 2 ^ 24 }
    {
        (self.page_bits % (1u64 << log2)) as usize
    }
}
