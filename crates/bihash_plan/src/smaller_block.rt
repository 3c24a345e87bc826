//! The plan of a bucket that keeps fewer pairs: a smaller block.

ghost use Rattle.std.specs.Prelude.{◌<◌, ◌^◌, ◌↔◌, IsTrue, length};
ghost use Rattle.bihash_words.specs.Pages.{paging_of};
ghost use Rattle.bihash_plan.specs.Plans.{Fits, keys_of};
ghost use Rattle.bihash_plan.specs.Searches.{MayHavePlaces, MayLookAt};
ghost use Rattle.bihash_plan.specs.SmallerBlocks.{IsFirstPair, TellsFirstPair, TellsSmaller};

use crate::block_fit::fits;
use crate::block_search::is_free;
use bihash_words::Shape;

/// The smallest block that takes the pairs of a block of `2^log2` pages, if it has fewer pages: the log2 of the first number
/// of pages of which none is named by more than four pairs. `None`: there is no such block, or no pair. `places` has four
/// places a page, and none where the bucket has no block.
pub fn smaller<S: Shape>(places: &[(S::Key, u64)], log2: u64) -> Option<u64>
    requires { MayHavePlaces ⟦<S as Shape>⟧ log2 (length places.now) }
    ensures { TellsSmaller (paging_of ⟦<S as Shape>⟧) log2 places.now result }
{
    let Some(first) = first_pair(places) else {
        return None;
    };
    for smaller in 0..log2 {
        if fits_from::<S>(places, first, smaller) {
            return Some(smaller);
        }
    }
    None
}

/// Whether the pairs, of which the first is at this place, fit a smaller block of `2^log2` pages.
fn fits_from<S: Shape>(places: &[(S::Key, u64)], first: usize, log2: u64) -> bool
    requires may { MayLookAt ⟦<S as Shape>⟧ log2 places.now }
    requires first { IsFirstPair places.now first }
    ensures { IsTrue result ↔ Fits (paging_of ⟦<S as Shape>⟧) log2 (keys_of places.now) }
{
    let (key, _) = &places[first];
    fits::<S>(&places[first + 1..], key, log2)
}

/// The first place with a pair, where a smaller block is planned.
fn first_pair<K: Copy>(places: &[(K, u64)]) -> Option<usize>
    requires { length places.now < 2 ^ 62 }
    ensures { TellsFirstPair places.now result }
{
    for i in 0..places.len() {
        if !is_free(places, i) {
            return Some(i);
        }
    }
    None
}
