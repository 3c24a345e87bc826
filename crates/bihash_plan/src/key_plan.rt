//! The plan of a key: its place, a free place, or a larger block (`larger_block`).

ghost use Rattle.std.specs.Prelude.{◌≡◌, ◌<◌, ◌^◌, ◌↔◌, ℕ, false, IsTrue, length};
ghost use Rattle.bihash_words.specs.Pages.{page_of, paging_of};
ghost use Rattle.bihash_plan.specs.Blocks.{IsCrowded, IsFree, IsLawfulBlock, IsNew};
ghost use Rattle.bihash_plan.specs.Searches.{IsOnlyPlan, MayHavePlaces};
ghost use Rattle.bihash_plan.specs.Plans.{IsSafe};

use crate::block_pages::places_open_to;
use crate::block_search::{free_place, place_of_key};
use crate::larger_block::larger;
use crate::plan_answer::Plan;
use bihash_words::{BlockSize, Shape};

/// What the key needs of its bucket's block: its own place; for a new key the first free place
/// open to it; else the first larger block in which no page is named by more than four pairs, or
/// else a linear one. It is refused where the bucket holds as many pairs as the largest block.
/// `places` has four places a page, and none where the bucket has no block.
///
/// In a block that isn't linear the four places of one page decide. All places are looked at only
/// where that page is full and the block has the greatest size.
pub fn plan<S: Shape>(places: &[(S::Key, u64)], size: BlockSize, key: &S::Key) -> Plan
    requires { MayHavePlaces ⟦<S as Shape>⟧ size.log2 (length places.now) }

    ensures safe { IsSafe (paging_of ⟦<S as Shape>⟧) places.now key.now result }
    ensures without_block { length places.now ≡ 0 → result ≡ Plan.Grow (record { log2 = 0; linear = false }) }
    ensures lawful { IsLawfulBlock (paging_of ⟦<S as Shape>⟧) size.log2 size.linear places.now
        → IsOnlyPlan (paging_of ⟦<S as Shape>⟧) size.log2 size.linear places.now key.now result }
{
    let (from, to) = places_open_to::<S>(places.len(), size, key);
    if let Some(i) = place_of_key::<S>(places, from, to, key) {
        return Plan::InPlace(i);
    }
    if let Some(i) = free_place(places, from, to) {
        return Plan::InPlace(i);
    }
    larger::<S>(places, size, key)
}
