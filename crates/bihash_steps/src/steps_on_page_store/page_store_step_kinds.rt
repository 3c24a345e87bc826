//! What each kind of step on the page store, and on a block that no bucket has, tells its caller.
ghost use Rattle.std.specs.Prelude.{◌≡◌, ℕ, ◌+◌, Some};
ghost use Rattle.bihash_words.specs.Sizes.{sizes_of};
ghost use Rattle.bihash_rule.specs.Words.{page_at};
ghost use Rattle.bihash_steps.specs.StoreSteps.{holding, TellsStoreLock, TellsStoreOpened, TellsPoolWord, TellsTakenReturned, TellsTakenUnused, IsHeldWord, stored_at, TellsListed, TellsReturned, TellsCut};
ghost use Rattle.bihash_rule.specs.declared.view.HeldBlock.{HeldBlock};

use atomic_table::Play;
use bihash_rule::View;
use bihash_words::Shape;
use std::marker::PhantomData;

/// An exchange of the allocation lock, from open to taken.
pub(crate) struct PoolLocks<S> {
    shape: PhantomData<S>,
}

impl<S: Shape> Play<(), View> for PoolLocks<S> {
    ghost then = { λ _. TellsStoreLock (sizes_of S.Shape) };
}

/// A store that opens the allocation lock.
pub(crate) struct PoolOpens;

impl Play<(), View> for PoolOpens {
    ghost then = { λ _ me _ next. TellsStoreOpened me next };
}

/// A load of a word of the page store.
pub(crate) struct PoolWords<S> {
    shape: PhantomData<S>,
}

impl<S: Shape> Play<(), View> for PoolWords<S> {
    ghost then = { λ step. TellsPoolWord (sizes_of S.Shape) step.word };
}

/// A store of the count of a list from which a block is taken.
pub(crate) struct TakesReturned<S> {
    shape: PhantomData<S>,
}

impl<S: Shape> Play<(), View> for TakesReturned<S> {
    ghost then = { λ step me _ next. TellsTakenReturned (sizes_of S.Shape) step.word step.first me next };
}

/// A store of the used mark after pages that are taken.
pub(crate) struct TakesUnused<S> {
    shape: PhantomData<S>,
}

impl<S: Shape> Play<(), View> for TakesUnused<S> {
    ghost then = { λ step me _ next. TellsTakenUnused (sizes_of S.Shape) step.first me next };
}

/// A store of a word of the block that the caller holds.
pub(crate) struct HeldStores<S> {
    shape: PhantomData<S>,
}

impl<S: Shape> Play<(), View> for HeldStores<S> {
    ghost then = { λ step me _ next. (page k : ℕ) (h : HeldBlock) → IsHeldWord (sizes_of S.Shape) me.0 page k
        → step.word ≡ page_at (sizes_of S.Shape) page + k → me.0.holds.block ≡ Some h
        → next ≡ (holding me.0 me.0.holds.store (Some (stored_at h k step.first)), me.1) };
}

/// A store of a page number after the last of a list.
pub(crate) struct Lists<S> {
    shape: PhantomData<S>,
}

impl<S: Shape> Play<(), View> for Lists<S> {
    ghost then = { λ step me _ next. TellsListed (sizes_of S.Shape) step.word step.first me next };
}

/// A store of the count of a list to which a block is given back.
pub(crate) struct Returns<S> {
    shape: PhantomData<S>,
}

impl<S: Shape> Play<(), View> for Returns<S> {
    ghost then = { λ step me _ next. TellsReturned (sizes_of S.Shape) step.word step.first me next };
}

/// A store of the count of a list to which the second half of a block is given back.
pub(crate) struct Cuts<S> {
    shape: PhantomData<S>,
}

impl<S: Shape> Play<(), View> for Cuts<S> {
    ghost then = { λ step me _ next. TellsCut (sizes_of S.Shape) step.word step.first me next };
}
