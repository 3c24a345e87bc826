//! A key whose hash is known.
ghost use Rattle.std.specs.Prelude.{◌≡◌};

use bihash_words::Shape;

/// A key and its hash. Whoever has hashed a key, to find who works on its bucket, hands on both.
#[derive(Drop)]
pub struct KeyWithHash<'k, S: Shape> {
    pub key: &'k S::Key,
    pub hash: u64,
    pub ghost hashed: { hash ≡ S.hash_of_words (S.words_of key.now) },
}

impl<'k, S: Shape> KeyWithHash<'k, S> {
    /// The key with its hash, which is computed here.
    #[inline(always)]
    pub fn of(key: &'k S::Key) -> KeyWithHash<'k, S>
        ensures { result.key.now ≡ key.now }
    {
        KeyWithHash {
            key,
            hash: S::hash(key),
        }
    }
}
