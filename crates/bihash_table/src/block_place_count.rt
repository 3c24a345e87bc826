//! The places of a block: how many it has, and what marks a free one.
ghost use Rattle.std.specs.Prelude.{◌≡◌, ◌*◌, ◌^◌, ◌≤◌};
ghost use Rattle.bihash_words.specs.Sizes.{sizes_of};
ghost use Rattle.bihash_table.specs.inner.Scans.{CountsPlaces, NamesBlock};

use bihash_words::{BucketWord, Shape};
pub(crate) use bihash_words::{FREE, PAGE_PLACES};

/// How many places a block of `2^log2` pages has.
pub(crate) fn places_of(log2: u64) -> usize
    requires { log2 ≤ 24 }
    ensures { result ≡ 4 * 2 ^ log2 }
{
    4usize << log2
}

/// How many places the block of a bucket has whose word is this.
pub(crate) fn place_count<S: Shape>(word: BucketWord) -> usize
    requires { NamesBlock (sizes_of S.Shape) word }
    ensures { CountsPlaces (sizes_of S.Shape) word result }
{
    if word.page() == 0 {
        return 0;
    }
    places_of(word.log2())
}
