//! Laying the pairs of a bucket out in another block: with a new one in a larger block, or alone in a smaller one.

ghost use Rattle.std.specs.Prelude.{◌≡◌, ◌≢◌, ◌≤◌, ◌<◌, ℕ, false, length, replicate, slice_set, IfSome};
ghost use Rattle.bihash_words.specs.Patches.{free_mark};
ghost use Rattle.bihash_words.specs.Pages.{page_of, paging_of};
ghost use Rattle.bihash_words.specs.declared.block_size.BlockSize.{BlockSize};
ghost use Rattle.bihash_plan.specs.Blocks.{IsCrowded, IsFirstFree, IsLawfulBlock, pairs};
ghost use Rattle.bihash_plan.specs.Layouts.{HasPlacesTo, IsFirstFreeOrNone, IsLaid, IsNamed, IsRehash, IsTakenBefore};
ghost use Rattle.bihash_plan.specs.Plans.{Fits, keys_of};
ghost use Rattle.bihash_plan.specs.inner.LaidPairs.{IsLaidSoFar, MayBeLaid};
ghost use Rattle.bihash_plan.specs.Searches.{HasPlaces};

use crate::block_pages::places_open_to;
use crate::block_search::free_place;
use bihash_words::{BlockSize, FREE, Shape};

/// Rehashes pairs into `out`, a block of this size: those that stand in `places` in their order and then
/// the new one, each at the first free place open to its key. `plan` has to have named this block
/// for the key, and the value isn't all ones; else pairs for which there is no place are left out.
pub fn lay<S: Shape>(
    places: &[(S::Key, u64)],
    key: &S::Key,
    value: u64,
    size: BlockSize,
    out: &mut [(S::Key, u64)],
)
    requires { HasPlaces ⟦<S as Shape>⟧ size.log2 (length out.old) }
    ensures { IsNamed (paging_of ⟦<S as Shape>⟧) places.now key.now size → value ≢ free_mark
        → IsRehash (paging_of ⟦<S as Shape>⟧) size.log2 size.linear places.now key.now value out.new }
{
    clear(*key, out);
    let next = lay_pairs::<S>(places, size, out);
    put::<S>((*key, value), size, next, out);
}

/// Lays pairs out in `out`, a block of `2^log2` pages that isn't linear: those that stand in `places` in their order, each
/// at the first free place open to its key. They have to fit that block; else some are left out. The key is shown at the
/// free places.
pub fn lay_kept<S: Shape>(
    places: &[(S::Key, u64)],
    key: &S::Key,
    log2: u64,
    out: &mut [(S::Key, u64)],
)
    requires { HasPlaces ⟦<S as Shape>⟧ log2 (length out.old) }
    ensures { (was : BlockSize) → IsLawfulBlock (paging_of ⟦<S as Shape>⟧) was.log2 was.linear places.now
        → Fits (paging_of ⟦<S as Shape>⟧) log2 (keys_of places.now)
        → IsLaid (paging_of ⟦<S as Shape>⟧) log2 false (pairs places.now) out.new }
{
    clear(*key, out);
    let linear = false;
    lay_pairs::<S>(places, BlockSize { log2, linear }, out);
}

/// Lays the pairs that stand in `places` out in their order in a block without a pair, and says before which place that
/// has no free one then, if it is linear.
fn lay_pairs<S: Shape>(
    places: &[(S::Key, u64)],
    size: BlockSize,
    out: &mut [(S::Key, u64)],
) -> usize
    requires { HasPlaces ⟦<S as Shape>⟧ size.log2 (length out.old) }
    ensures within { result ≤ length out.new }
    ensures laid { MayBeLaid (paging_of ⟦<S as Shape>⟧) size.log2 size.linear places.now out.old
        → IsLaidSoFar (paging_of ⟦<S as Shape>⟧) size.log2 size.linear places.now (length places.now) result out.new }
{
    let mut next = 0;
    for pair in places {
        if pair.1 == FREE {
            continue;
        }
        next = put::<S>(*pair, size, next, out);
    }
    next
}

/// Makes each place of the block free, before pairs are laid out in it.
fn clear<K: Copy>(key: K, out: &mut [(K, u64)])
    ensures { out.new ≡ replicate (length out.old) (key, free_mark) }
{
    for place in out.iter_mut() {
        *place = (key, FREE);
    }
}

/// Rehashes a pair: puts it at the first free place open to its key, where a linear block has none before
/// `next`, and says before which place it has none afterwards.
fn put<S: Shape>(
    pair: (S::Key, u64),
    size: BlockSize,
    next: usize,
    out: &mut [(S::Key, u64)],
) -> usize
    requires { HasPlacesTo ⟦<S as Shape>⟧ size.log2 (length out.old) next }
    ensures within { result ≤ length out.new }
    ensures placed { pair.1 ≢ free_mark → IsTakenBefore size.linear next out.old
        → (IsCrowded size.linear (page_of (paging_of ⟦<S as Shape>⟧) size.log2 pair.0) out.old → ⊥)
        → (i : ℕ) × IsFirstFree size.linear (page_of (paging_of ⟦<S as Shape>⟧) size.log2 pair.0) out.old i
        × (out.new ≡ slice_set out.old i pair) × IsTakenBefore size.linear result out.new }
{
    match first_free::<S>(out, size, next, &pair.0) {
        Some(i) => {
            out[i] = pair;
            i + 1
        }
        None => next,
    }
}

/// The first free place open to the key of a pair that is rehashed, where a linear block has none before `next`.
fn first_free<S: Shape>(
    places: &[(S::Key, u64)],
    size: BlockSize,
    next: usize,
    key: &S::Key,
) -> Option<usize>
    requires { HasPlacesTo ⟦<S as Shape>⟧ size.log2 (length places.now) next }
    ensures within { IfSome result (λ i. i < length places.now) }
    ensures first { IsTakenBefore size.linear next places.now
        → IsFirstFreeOrNone size.linear (page_of (paging_of ⟦<S as Shape>⟧) size.log2 key.now) places.now result }
{
    if size.linear {
        return free_place(places, next, places.len());
    }
    let (from, to) = places_open_to::<S>(places.len(), size, key);
    free_place(places, from, to)
}
