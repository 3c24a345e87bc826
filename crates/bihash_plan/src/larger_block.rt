//! How far a bucket's block grows for a new key.

ghost use Rattle.std.specs.Prelude.{◌≡◌, ◌<◌, ◌^◌, ◌↔◌, ℕ, false, IsTrue, length};
ghost use Rattle.bihash_words.specs.Pages.{page_of, paging_of};
ghost use Rattle.bihash_plan.specs.Blocks.{IsCrowded, IsFree, IsLawfulBlock, IsNew};
ghost use Rattle.bihash_plan.specs.Searches.{IsOnlyPlan, MayHavePlaces};
ghost use Rattle.bihash_plan.specs.Plans.{IsSafe};

use crate::block_fit::has_room;
use crate::block_search::free_place;
use crate::plan_answer::Plan;
use bihash_words::{BlockSize, Shape};

/// The plan of a new key to which no free place is open: `plan` where the caller has looked for the key and
/// for a free place already.
pub fn larger<S: Shape>(places: &[(S::Key, u64)], size: BlockSize, key: &S::Key) -> Plan
    requires { MayHavePlaces ⟦<S as Shape>⟧ size.log2 (length places.now) }

    ensures safe { IsSafe (paging_of ⟦<S as Shape>⟧) places.now key.now result }
    ensures without_block { length places.now ≡ 0 → result ≡ Plan.Grow (record { log2 = 0; linear = false }) }
    ensures lawful { IsLawfulBlock (paging_of ⟦<S as Shape>⟧) size.log2 size.linear places.now → IsNew places.now key.now
        → IsCrowded size.linear (page_of (paging_of ⟦<S as Shape>⟧) size.log2 key.now) places.now
        → IsOnlyPlan (paging_of ⟦<S as Shape>⟧) size.log2 size.linear places.now key.now result }
{
    if places.is_empty() {
        return Plan::Grow(BlockSize {
            log2: 0,
            linear: false,
        });
    }
    if has_room::<S>(places, size, key, size.log2 + 1) {
        return Plan::Grow(BlockSize {
            log2: size.log2 + 1,
            linear: false,
        });
    }
    if has_room::<S>(places, size, key, size.log2 + 2) {
        return Plan::Grow(BlockSize {
            log2: size.log2 + 2,
            linear: false,
        });
    }
    if size.log2 < S::MAX_LOG2 {
        return Plan::Grow(BlockSize {
            log2: size.log2 + 1,
            linear: true,
        });
    }
    if !size.linear && has_free_place_for_plan(places) {
        return Plan::Grow(BlockSize {
            log2: S::MAX_LOG2,
            linear: true,
        });
    }
    Plan::Full
}

/// Whether some place of the block is free, as the plan of a new key asks before it is Full.
fn has_free_place_for_plan<K: Copy>(places: &[(K, u64)]) -> bool
    requires { length places.now < 2 ^ 62 }
    ensures { IsTrue result ↔ ((i : ℕ) × IsFree places.now i) }
{
    free_place(places, 0, places.len()).is_some()
}
