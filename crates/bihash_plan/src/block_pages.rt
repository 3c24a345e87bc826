//! The pages and places of a block, and which places are open to a key.

ghost use Rattle.std.specs.Prelude.{◌≡◌, ◌≤◌, ◌<◌, ◌^◌};
ghost use Rattle.bihash_words.specs.Pages.{page_of, paging_of};
ghost use Rattle.bihash_plan.specs.Searches.{AreOpenPlaces, MayHavePages, MayHavePlaces};

use bihash_words::{BlockSize, PAGE_PLACES, Shape};

/// The page that the key's hash names in a block of `2^log2` pages.
pub(crate) fn page<S: Shape>(key: &S::Key, log2: u64) -> usize
    requires pages { MayHavePages ⟦<S as Shape>⟧ log2 }
    ensures { result ≡ page_of (paging_of ⟦<S as Shape>⟧) log2 key.now }
{
    let hash = S::hash(key);
    ((hash >> S::LOG2_BUCKETS) % (1u64 << log2)) as usize
}

/// How many pages a block of this log2 has.
pub fn page_count(log2: u64) -> usize
    requires { log2 ≤ 24 }
    ensures { result ≡ 2 ^ log2 }
{
    1usize << log2
}

/// The places of a block that are open to the key, those of its page or all, as the first of them and the one after the
/// last.
pub(crate) fn places_open_to<S: Shape>(
    count: usize,
    size: BlockSize,
    key: &S::Key,
) -> (usize, usize)
    requires { MayHavePlaces ⟦<S as Shape>⟧ size.log2 count }
    ensures { AreOpenPlaces size.linear (page_of (paging_of ⟦<S as Shape>⟧) size.log2 key.now) count result.0 result.1 }
{
    if size.linear || count == 0 {
        return (0, count);
    }
    let first = PAGE_PLACES * page::<S>(key, size.log2);
    (first, first + PAGE_PLACES)
}
