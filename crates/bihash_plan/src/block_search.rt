//! Searches of a block for a key and for a free place.

ghost use Rattle.std.specs.Prelude.{◌≤◌, ◌<◌, ◌↔◌, ℕ, IsTrue, IfSome, IfNone, length};
ghost use Rattle.bihash_words.specs.Sizes.{IsSound, sizes_of};
ghost use Rattle.bihash_words.specs.Blocks.{IsOpen};
ghost use Rattle.bihash_words.specs.Pages.{page_of, paging_of};
ghost use Rattle.bihash_plan.specs.Blocks.{HasKey, IsFree, IsLawfulBlock};
ghost use Rattle.bihash_plan.specs.Searches.{IsFirstFreeOf, IsPlace, IsPlaceOfKey, IsRange, MayHavePlaces};

use crate::block_pages::places_open_to;
use bihash_words::{BlockSize, FREE, Shape, is_same};

/// Searches a block for the place where the key's pair stands. `places` has four places a page, and none
/// where the bucket has no block. Where they are no lawful block, as in a read that a writer overtook, only
/// the places open to the key are searched.
pub fn find<S: Shape>(places: &[(S::Key, u64)], size: BlockSize, key: &S::Key) -> Option<usize>
    requires { MayHavePlaces ⟦<S as Shape>⟧ size.log2 (length places.now) }

    ensures found { IfSome result (HasKey places.now key.now) }
    ensures reached { IfSome result (IsOpen size.linear (page_of (paging_of ⟦<S as Shape>⟧) size.log2 key.now)) }
    ensures open_only { IfNone result ((i : ℕ) → IsOpen size.linear (page_of (paging_of ⟦<S as Shape>⟧) size.log2 key.now) i
        → HasKey places.now key.now i → ⊥) }
    // On a lawful block the answer is the key's place, and None exactly where no pair has the key.
    ensures lawful { IsLawfulBlock (paging_of ⟦<S as Shape>⟧) size.log2 size.linear places.now
        → IsPlaceOfKey places.now key.now result }
{
    let (from, to) = places_open_to::<S>(places.len(), size, key);
    place_of_key::<S>(places, from, to, key)
}

/// Searches a block for a place with a pair of the key, among those from one place to before another.
pub(crate) fn place_of_key<S: Shape>(
    places: &[(S::Key, u64)],
    from: usize,
    to: usize,
    key: &S::Key,
) -> Option<usize>
    requires shape { IsSound (sizes_of ⟦<S as Shape>⟧) }
    requires range { IsRange places.now to }
    ensures found { IfSome result (HasKey places.now key.now) }
    ensures among { IfSome result (λ i. (from ≤ i) × (i < to)) }
    ensures none { IfNone result ((i : ℕ) → from ≤ i → i < to → HasKey places.now key.now i → ⊥) }
{
    for i in from..to {
        if has_key::<S>(places, i, key) {
            return Some(i);
        }
    }
    None
}

/// Searches a block for the first free place, among those from one place to before another.
pub(crate) fn free_place<K: Copy>(places: &[(K, u64)], from: usize, to: usize) -> Option<usize>
    requires range { IsRange places.now to }
    ensures { IsFirstFreeOf places.now from to result }
{
    for i in from..to {
        if is_free(places, i) {
            return Some(i);
        }
    }
    None
}

/// Whether a pair with the key that is searched for is at the place.
fn has_key<S: Shape>(places: &[(S::Key, u64)], i: usize, key: &S::Key) -> bool
    requires shape { IsSound (sizes_of ⟦<S as Shape>⟧) }
    requires place { IsPlace places.now i }
    ensures { IsTrue result ↔ HasKey places.now key.now i }
{
    let (other, value) = &places[i];
    *value != FREE && is_same::<S>(other, key)
}

/// Whether the place that a search looks at is free.
pub(crate) fn is_free<K: Copy>(places: &[(K, u64)], i: usize) -> bool
    requires place { IsPlace places.now i }
    ensures { IsTrue result ↔ IsFree places.now i }
{
    places[i].1 == FREE
}
