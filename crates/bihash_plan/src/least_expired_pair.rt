//! The pair that goes for a new one where a block is full.

ghost use Rattle.std.specs.Prelude.{◌+◌, IfSome, IfNone, length};
ghost use Rattle.bihash_words.specs.Sizes.{IsSound, sizes_of};
ghost use Rattle.bihash_words.specs.Pages.{paging_of};
ghost use Rattle.bihash_plan.specs.Recycles.{IsLeastExpired, IsMarked, NoneIsExpired};
ghost use Rattle.bihash_plan.specs.Searches.{IsPlace, IsRange, MayHavePlaces};
ghost use Rattle.bihash_plan.specs.inner.LeastPairs.{IsBound, IsLeastAmong};

use crate::block_pages::page;
use crate::recycled_place::Recycle;
use bihash_words::{BlockSize, Expiry, FREE, PAGE_PLACES, Shape, compare};
use std::cmp::Ordering;

/// The place of the expired pair with the least key by its words, first word first, where a new key is to have it,
/// and whether the block is linear then: where it was, or where that place isn't in the key's page. `None`: no pair
/// is expired. It is asked where `plan` answers Full.
pub fn recycle<S: Shape, E: Expiry>(
    places: &[(S::Key, u64)],
    size: BlockSize,
    key: &S::Key,
    expiry: &E,
) -> Option<Recycle>
    requires { MayHavePlaces ⟦<S as Shape>⟧ size.log2 (length places.now) }
    ensures place { IfSome result (λ r. IsLeastExpired S.words_of (E.is_expired expiry.now) places.now r.place) }
    ensures mark { IfSome result (IsMarked (paging_of ⟦<S as Shape>⟧) size key.now) }
    ensures none { IfNone result (NoneIsExpired (E.is_expired expiry.now) places.now) }
{
    let place = least_expired::<S, E>(places, expiry)?;
    let linear = size.linear || place / PAGE_PLACES != page::<S>(key, size.log2);
    Some(Recycle { place, linear })
}

/// The expired pair with the least key among some places.
#[derive(Clone, Copy)]
struct Least {
    /// Its place; None where no pair is expired.
    place: Option<usize>,
    /// The first word of its key, or the greatest there is.
    bound: u64,
}

/// The place of the expired pair with the least key, whose recycling is planned. Most keys begin with a greater word
/// than the least so far, and nothing more is asked of their pairs.
fn least_expired<S: Shape, E: Expiry>(places: &[(S::Key, u64)], expiry: &E) -> Option<usize>
    requires shape { IsSound (sizes_of ⟦<S as Shape>⟧) }
    requires range { IsRange places.now (length places.now) }
    ensures { IsLeastAmong S.words_of (E.is_expired expiry.now) places.now (length places.now) result }
{
    let mut least = Least {
        place: None,
        bound: u64::MAX,
    };
    for i in 0..places.len() {
        if S::word(&places[i].0, 0) <= least.bound {
            least = lesser::<S, E>(places, expiry, least, i);
        }
    }
    least.place
}

/// For the plan of recycling, the expired pair with the least key among the places up to one and with it, where it is
/// known among those before it.
fn lesser<S: Shape, E: Expiry>(
    places: &[(S::Key, u64)],
    expiry: &E,
    least: Least,
    i: usize,
) -> Least
    requires shape { IsSound (sizes_of ⟦<S as Shape>⟧) }
    requires place { IsPlace places.now i }
    requires least { IsLeastAmong S.words_of (E.is_expired expiry.now) places.now i least.place }
    requires bound { IsBound S.words_of places.now least }
    ensures least { IsLeastAmong S.words_of (E.is_expired expiry.now) places.now (i + 1) result.place }
    ensures bound { IsBound S.words_of places.now result }
{
    let (key, value) = &places[i];
    if let Some(other) = least.place {
        if compare::<S>(&places[other].0, key) != Ordering::Greater {
            return least;
        }
    }
    if *value == FREE || !expiry.expired(*value) {
        return least;
    }
    Least {
        place: Some(i),
        bound: S::word(key, 0),
    }
}
