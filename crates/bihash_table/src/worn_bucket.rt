//! Buckets whose versions are used up.
ghost use Rattle.std.specs.Prelude.{◌≡◌, ◌==◌};
ghost use Rattle.bihash_words.specs.Words.{Bucket, FitsWord, packed};

use bihash_words::{BucketWord, Shape};

// Whether the version of a bucket is used up.
pub(crate) fn is_worn<S: Shape>(word: BucketWord) -> bool
    ensures { (x : Bucket) → FitsWord x → word ≡ packed x → result ≡ (x.version == S.LIMIT) }
{
    word.version() == S::LIMIT
}
