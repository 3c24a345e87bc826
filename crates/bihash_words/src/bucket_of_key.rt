//! Which bucket a key belongs to.
ghost use Rattle.std.specs.Prelude.{◌≡◌, ◌<◌, ◌^◌, length};
ghost use Rattle.bihash_words.specs.Sizes.{IsSound, bucket_of, sizes_of};

use crate::shape::Shape;

/// The bucket of a key: the lowest `LOG2_BUCKETS` bits of its hash.
pub fn bucket_of<S: Shape>(key: &S::Key) -> u64
    requires { IsSound (sizes_of ⟦<S as Shape>⟧) }
    ensures home { result ≡ bucket_of (sizes_of ⟦<S as Shape>⟧) (S.words_of key.now) }
    ensures inside { result < 2 ^ S.LOG2_BUCKETS }
    ensures counted { length (S.words_of key.now) ≡ S.WORDS }
{
    S::hash(key) % (1u64 << S::LOG2_BUCKETS)
}
