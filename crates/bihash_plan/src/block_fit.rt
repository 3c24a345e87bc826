//! Whether pairs and a new key fit the pages of a block.

ghost use Rattle.std.specs.Prelude.{◌≡◌, ◌≤◌, ◌<◌, ◌↔◌, ◌∷◌, IsTrue, length};
ghost use Rattle.bihash_words.specs.Pages.{page_of, paging_of};
ghost use Rattle.bihash_plan.specs.Blocks.{IsCrowded, IsLawfulBlock, NamesPage};
ghost use Rattle.bihash_plan.specs.Searches.{IsPlace, IsRange, MayHavePages, MayHavePlaces, MayLookAt, TellsOtherPage};
ghost use Rattle.bihash_plan.specs.Plans.{Fits, HasRoom, keys_of};
ghost use Rattle.bihash_plan.specs.inner.Tallies.{FitsWindow, IsCounted};

use crate::block_pages::{page, page_count, places_open_to};
use bihash_words::{BlockSize, FREE, PAGE_PLACES, Shape};

/// How many pages are counted at a time: as many as the largest block of the flow tables has.
const WINDOW: usize = 64;

/// Whether a block of `2^log2` pages can be planned for a new key: it takes the key, and the pairs of a block that has
/// no more pages.
pub(crate) fn has_room<S: Shape>(
    places: &[(S::Key, u64)],
    size: BlockSize,
    key: &S::Key,
    log2: u64,
) -> bool
    requires { MayHavePlaces ⟦<S as Shape>⟧ size.log2 (length places.now) }
    ensures within { IsTrue result → log2 ≤ S.MAX_LOG2 }
    ensures exact { IsLawfulBlock (paging_of ⟦<S as Shape>⟧) size.log2 size.linear places.now
        → IsCrowded size.linear (page_of (paging_of ⟦<S as Shape>⟧) size.log2 key.now) places.now
        → 0 < length places.now → size.log2 ≤ log2
        → (IsTrue result ↔ HasRoom (paging_of ⟦<S as Shape>⟧) (key.now ∷ keys_of places.now) log2) }
{
    if S::MAX_LOG2 < log2 {
        return false;
    }
    if size.linear {
        return fits::<S>(places, key, log2);
    }
    // A page's pairs go to pages that no other page's go to, so only the key's page can overflow.
    let (from, to) = places_open_to::<S>(places.len(), size, key);
    has_other_page::<S>(places, from, to, key, log2)
}

/// Whether no page of a block of `2^log2` pages is named by more than four of the pairs and the key.
pub(crate) fn fits<S: Shape>(places: &[(S::Key, u64)], key: &S::Key, log2: u64) -> bool
    requires { MayLookAt ⟦<S as Shape>⟧ log2 places.now }
    ensures { IsTrue result ↔ Fits (paging_of ⟦<S as Shape>⟧) log2 (key.now ∷ keys_of places.now) }
{
    for window in 0..(page_count(log2) + WINDOW - 1) / WINDOW {
        if !fits_window::<S>(places, key, log2, window * WINDOW) {
            return false;
        }
    }
    true
}

/// Whether none of the pages of a window, from `first` on, is named by more than four of the pairs and the new key.
fn fits_window<S: Shape>(places: &[(S::Key, u64)], key: &S::Key, log2: u64, first: usize) -> bool
    requires { MayLookAt ⟦<S as Shape>⟧ log2 places.now }
    ensures { IsTrue result ↔ FitsWindow (paging_of ⟦<S as Shape>⟧) log2 first (key.now ∷ keys_of places.now) }
{
    let mut counts = [0u8; WINDOW];
    count::<S>(&mut counts, first, log2, key);
    for (other, value) in places {
        if *value == FREE {
            continue;
        }
        if !count::<S>(&mut counts, first, log2, other) {
            return false;
        }
    }
    true
}

/// Counts one more key at its page, where that is a page of the window. False where it doesn't fit, as four keys have
/// named that page already.
fn count<S: Shape>(counts: &mut [u8], first: usize, log2: u64, key: &S::Key) -> bool
    requires pages { MayHavePages ⟦<S as Shape>⟧ log2 }
    requires long { length counts.old ≡ 64 }
    ensures { IsCounted (paging_of ⟦<S as Shape>⟧) log2 first key.now counts.old result counts.new }
{
    let page = page::<S>(key, log2);
    if page < first || WINDOW <= page - first {
        return true;
    }
    let page = page - first;
    if PAGE_PLACES <= counts[page] as usize {
        return false;
    }
    counts[page] += 1;
    true
}

/// Whether one of the pairs, from one place to before another, has another page than the key in the planned block.
fn has_other_page<S: Shape>(
    places: &[(S::Key, u64)],
    from: usize,
    to: usize,
    key: &S::Key,
    log2: u64,
) -> bool
    requires pages { MayHavePages ⟦<S as Shape>⟧ log2 }
    requires range { IsRange places.now to }
    ensures { let own = page_of (paging_of ⟦<S as Shape>⟧) log2 key.now in
        TellsOtherPage (paging_of ⟦<S as Shape>⟧) log2 own places.now from to result }
{
    let own = page::<S>(key, log2);
    for i in from..to {
        if !names_page_in_fit::<S>(places, i, log2, own) {
            return true;
        }
    }
    false
}

// Whether the key that the place shows names the page, in a block that its keys are to fit.
fn names_page_in_fit<S: Shape>(places: &[(S::Key, u64)], i: usize, log2: u64, own: usize) -> bool
    requires pages { MayHavePages ⟦<S as Shape>⟧ log2 }
    requires place { IsPlace places.now i }
    ensures { IsTrue result ↔ NamesPage (paging_of ⟦<S as Shape>⟧) log2 own places.now i }
{
    page::<S>(&places[i].0, log2) == own
}
