//! What each kind of step on a bucket tells its caller. The address of a step names the bucket, or the
//! word of a block.
ghost use Rattle.std.specs.Prelude.{◌≡◌, ℕ, ◌+◌, ◌<◌, false, [], length, Some, None};
ghost use Rattle.bihash_words.specs.Sizes.{sizes_of};
ghost use Rattle.bihash_words.specs.Expiries.{no_recycling};
ghost use Rattle.bihash_words.specs.declared.patch.Change.TheVariants.{Keep};
ghost use Rattle.bihash_words.specs.declared.patch.Reply.TheVariants.{Full};
ghost use Rattle.bihash_words.specs.Words.{FitsWord};
ghost use Rattle.bihash_rule.specs.Callers.{known_at};
ghost use Rattle.bihash_rule.specs.Buckets.{word_of, open_word};
ghost use Rattle.bihash_rule.specs.Words.{bucket_at, buckets, page_at};
ghost use Rattle.bihash_steps.specs.BucketSteps.{TellsBucket, TellsLock, IsLockedWord, TellsLockedWord, TellsStored, IsOpenWord, TellsOpenWord, TellsValid, TellsEntry, TellsEvent, without_lock, view_after_answer, view_after_write};
ghost use Rattle.bihash_steps.specs.StoreSteps.{view_after_replace};
ghost use Rattle.bihash_rule.specs.declared.view.Call.{Call};
ghost use Rattle.bihash_rule.specs.declared.view.LockedBucket.{LockedBucket};
ghost use Rattle.bihash_rule.specs.declared.view.OpenBucket.{OpenBucket};

use atomic_table::Play;
use bihash_rule::View;
use bihash_words::Shape;
use std::marker::{Brand, PhantomData};

/// A load of a bucket's word.
pub(crate) struct Sees<S> {
    shape: PhantomData<S>,
}

impl<S: Shape> Play<(), View> for Sees<S> {
    ghost then = { λ step me found next. (b : ℕ) → b < buckets (sizes_of S.Shape)
        → step.word ≡ bucket_at (sizes_of S.Shape) b
        → TellsBucket (sizes_of S.Shape) b me found next };
}

/// An exchange of a bucket's word with the same word under the lock bit.
pub(crate) struct Locks<S> {
    shape: PhantomData<S>,
}

impl<S: Shape> Play<(), View> for Locks<S> {
    ghost then = { λ step me found next. (b : ℕ) → b < buckets (sizes_of S.Shape)
        → step.word ≡ bucket_at (sizes_of S.Shape) b
        → TellsLock (sizes_of S.Shape) b step.first me found next };
}

/// A load of a word of the block that the caller has locked.
pub(crate) struct LockedWords<S> {
    shape: PhantomData<S>,
}

impl<S: Shape> Play<(), View> for LockedWords<S> {
    ghost then = { λ step me found next. (page k : ℕ) → IsLockedWord (sizes_of S.Shape) me.0 page k
        → step.word ≡ page_at (sizes_of S.Shape) page + k → TellsLockedWord k me found next };
}

/// A store of a word of that block.
pub(crate) struct LockedStores<S> {
    shape: PhantomData<S>,
}

impl<S: Shape> Play<(), View> for LockedStores<S> {
    ghost then = { λ step me _ next. (page k : ℕ) → IsLockedWord (sizes_of S.Shape) me.0 page k
        → step.word ≡ page_at (sizes_of S.Shape) page + k → TellsStored k step.first me next };
}

/// A store of a bucket's old word.
pub(crate) struct Releases<S> {
    shape: PhantomData<S>,
}

impl<S: Shape> Play<(), View> for Releases<S> {
    ghost then = { λ _ me _ next. TellsEvent (sizes_of S.Shape) without_lock me next };
}

/// The call that a step answers. It is no value: a proof alone picks it, where `Brand` is passed.
pub trait Calling {
    ghost call: { Call };
}

impl Calling for Brand {
    ghost call = { record { bucket = 0; stamp = 0; key = []; found = None; change = Keep; reply = Full; recycling = no_recycling; store = None } };
}

/// A store of a bucket's old word that answers a call. The word's version is the number of the writes that
/// are known.
pub(crate) struct Answers<S, E> {
    call: PhantomData<(S, E)>,
}

impl<S: Shape, E: Calling> Play<(), View> for Answers<S, E> {
    ghost then = { λ _ me _ next. TellsEntry (sizes_of S.Shape) (λ v. view_after_answer v E.call) E.call me next
        × ((l : LockedBucket) → me.0.holds.bucket ≡ Some l → FitsWord (word_of l.extent false l.version)
        × (l.version ≡ length (known_at me.0.known l.bucket))) };
}

/// A store of a bucket's next word that is the write of a call.
pub(crate) struct Publishes<S, E> {
    call: PhantomData<(S, E)>,
}

impl<S: Shape, E: Calling> Play<(), View> for Publishes<S, E> {
    ghost then = { λ _ me _ next. TellsEntry (sizes_of S.Shape) (λ v. view_after_write v E.call) E.call me next };
}

/// The same, where the bucket gets another block.
pub(crate) struct Replaces<S, E> {
    call: PhantomData<(S, E)>,
}

impl<S: Shape, E: Calling> Play<(), View> for Replaces<S, E> {
    ghost then = { λ _ me _ next. TellsEntry (sizes_of S.Shape) (λ v. view_after_replace v E.call) E.call me next };
}

/// A load of a word of the block that was noted of an open bucket.
pub(crate) struct OpenWords<S> {
    shape: PhantomData<S>,
}

impl<S: Shape> Play<(), View> for OpenWords<S> {
    ghost then = { λ step me found next. (page k : ℕ) → IsOpenWord (sizes_of S.Shape) me.0 page k
        → step.word ≡ page_at (sizes_of S.Shape) page + k → TellsOpenWord k me found next };
}

/// A load of a bucket's word that answers a call where it finds the word that was noted.
pub(crate) struct Validates<S, E> {
    call: PhantomData<(S, E)>,
}

impl<S: Shape, E: Calling> Play<(), View> for Validates<S, E> {
    ghost then = { λ _ me found next. (o : OpenBucket) → me.0.notes.open_bucket ≡ Some o
        → TellsValid (sizes_of S.Shape) (open_word o) E.call me found next };
}
