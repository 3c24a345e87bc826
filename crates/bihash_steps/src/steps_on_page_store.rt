//! Steps on the page store under its allocation lock, and on a block that no bucket has.
ghost use Rattle.std.specs.Prelude.{◌≡◌, ◌+◌, Some, None, slice_index};
ghost use Rattle.bihash_words.specs.Sizes.{sizes_of};
ghost use Rattle.bihash_rule.specs.PageStores.{returned_in};
ghost use Rattle.bihash_steps.specs.StoreCalls.{ReadsStore, TriesStoreLock};
ghost use Rattle.bihash_steps.specs.StoreSteps.{holding, store_opened, IsInStore, unlisted, grown, TakesBlock, MayTakeReturned, MayTakeUnused, IsHeldWord, stored_at, MayList, listing, MayReturn, relisted, MayCut, halved, MayOpenStore};
ghost use Rattle.bihash_rule.specs.declared.view.LockedStore.{LockedStore};
ghost use Rattle.bihash_rule.specs.declared.view.HeldBlock.{HeldBlock};
ghost use Rattle.bihash_steps.specs.Seats.{with_view};

use crate::row_and_callers::{CallerSeat, Row};
use crate::row_layout::{ALLOCATION_LOCK, USED_MARK};
use bihash_words::Shape;

mod page_store_step_kinds;
mod word;

use page_store_step_kinds::{
    Cuts, HeldStores, Lists, PoolLocks, PoolOpens, PoolWords, Returns, TakesReturned, TakesUnused,
};
pub use word::PoolWord;

impl<S: Shape> Row<S> {
    /// Takes the allocation lock, and says whether it was open. A lone caller that doesn't hold it takes
    /// it.
    pub fn pool_lock(&self, caller: &mut CallerSeat<S>) -> bool
        requires own { caller.old.row ≡ self.now }
        ensures { TriesStoreLock (sizes_of S.Shape) caller.old caller.new result }
    {
        let shared = &self.table.shared;
        shared.compare_exchange::<PoolLocks<S>>(&mut caller.seat, ALLOCATION_LOCK, 0, 1) == 0
    }

    /// A word of the page store.
    pub fn pool_load(&self, caller: &mut CallerSeat<S>, word: PoolWord) -> u64
        requires own { caller.old.row ≡ self.now }
        requires locked { (n : LockedStore) × (caller.old.view.holds.store ≡ Some n)
            × IsInStore (sizes_of S.Shape) n.store word }
        ensures { ReadsStore (sizes_of S.Shape) caller.old caller.new word result }
    {
        let shared = &self.table.shared;
        shared.load::<PoolWords<S>>(&mut caller.seat, self.pool_word_at(word))
    }

    /// Takes the last of the returned blocks of this log2, of which `count` are left.
    pub fn pool_take_returned(&self, caller: &mut CallerSeat<S>, log2: u64, count: u64)
        requires own { caller.old.row ≡ self.now }
        requires may { MayTakeReturned (sizes_of S.Shape) caller.old.view log2 count }
        ensures same { caller.new ≡ with_view caller.old caller.new.view }
        ensures taken { (n : LockedStore) → caller.old.view.holds.store ≡ Some n
            → TakesBlock (sizes_of S.Shape) caller.old.view (unlisted n.store log2)
            (slice_index (returned_in n.store log2) count) log2 caller.new.view }
    {
        let shared = &self.table.shared;
        shared.store::<TakesReturned<S>>(&mut caller.seat, self.returned_count_at(log2), count);
    }

    /// Takes the next `2^log2` pages that were never used, where `used` pages were handed out and no block of this log2 was
    /// returned.
    pub fn pool_take_unused(&self, caller: &mut CallerSeat<S>, log2: u64, used: u64)
        requires own { caller.old.row ≡ self.now }
        requires may { MayTakeUnused (sizes_of S.Shape) caller.old.view log2 used }
        ensures same { caller.new ≡ with_view caller.old caller.new.view }
        ensures taken { (n : LockedStore) → caller.old.view.holds.store ≡ Some n
            → TakesBlock (sizes_of S.Shape) caller.old.view (grown n.store log2) (used + 1) log2 caller.new.view }
    {
        let shared = &self.table.shared;
        shared.store::<TakesUnused<S>>(&mut caller.seat, USED_MARK, used + (1 << log2));
    }

    /// Stores word k of the block that the caller holds, taken from the page store, which begins at this page.
    pub fn store_held(&self, caller: &mut CallerSeat<S>, page: u64, k: usize, word: u64)
        requires own { caller.old.row ≡ self.now }
        requires word { IsHeldWord (sizes_of S.Shape) caller.old.view page k }
        ensures { (h : HeldBlock) → caller.old.view.holds.block ≡ Some h → caller.new ≡ with_view caller.old
            (holding caller.old.view caller.old.view.holds.store (Some (stored_at h k word))) }
    {
        let shared = &self.table.shared;
        shared.store::<HeldStores<S>>(&mut caller.seat, self.page_at(page, k), word);
    }

    /// Writes the page of a block that is to be returned after the `count` returned blocks of this log2.
    pub fn pool_list(&self, caller: &mut CallerSeat<S>, log2: u64, count: u64, page: u64)
        requires own { caller.old.row ≡ self.now }
        requires may { MayList (sizes_of S.Shape) caller.old.view log2 count }
        ensures { (n : LockedStore) → caller.old.view.holds.store ≡ Some n → caller.new ≡ with_view caller.old
            (holding caller.old.view (Some (listing n log2 page)) caller.old.view.holds.block) }
    {
        let shared = &self.table.shared;
        shared.store::<Lists<S>>(&mut caller.seat, self.list_at(log2, count), page);
    }

    /// Gives back the block that the caller holds, whose page follows the `count` returned blocks of
    /// its log2.
    pub fn pool_return(&self, caller: &mut CallerSeat<S>, log2: u64, count: u64)
        requires own { caller.old.row ≡ self.now }
        requires may { MayReturn (sizes_of S.Shape) caller.old.view log2 count }
        ensures { (n : LockedStore) (h : HeldBlock) → caller.old.view.holds.store ≡ Some n
            → caller.old.view.holds.block ≡ Some h → caller.new ≡ with_view caller.old
            (holding caller.old.view (Some (record { store = relisted n.store log2 h.page; listed = None })) None) }
    {
        let shared = &self.table.shared;
        shared.store::<Returns<S>>(&mut caller.seat, self.returned_count_at(log2), count + 1);
    }

    /// Cuts the block of `2^(log2 + 1)` pages that the caller holds: gives back its second half, whose page follows the
    /// `count` returned blocks of that size. The caller holds the first half.
    pub fn pool_cut(&self, caller: &mut CallerSeat<S>, log2: u64, count: u64)
        requires own { caller.old.row ≡ self.now }
        requires may { MayCut (sizes_of S.Shape) caller.old.view log2 count }
        ensures { (n : LockedStore) (h : HeldBlock) → caller.old.view.holds.store ≡ Some n
            → caller.old.view.holds.block ≡ Some h
            → caller.new ≡ with_view caller.old (halved (sizes_of S.Shape) caller.old.view n h log2) }
    {
        let shared = &self.table.shared;
        shared.store::<Cuts<S>>(&mut caller.seat, self.returned_count_at(log2), count + 1);
    }

    /// Opens the allocation lock, once the block that a growth replaced has been given back. What stood in the page store
    /// is noted, for a refusal for want of pages.
    pub fn pool_unlock(&self, caller: &mut CallerSeat<S>)
        requires own { caller.old.row ≡ self.now }
        requires may { MayOpenStore caller.old.view }
        ensures { (n : LockedStore) → caller.old.view.holds.store ≡ Some n
            → caller.new ≡ with_view caller.old (store_opened caller.old.view n) }
    {
        let shared = &self.table.shared;
        shared.store::<PoolOpens>(&mut caller.seat, ALLOCATION_LOCK, 0);
    }
}
