//! Steps on a bucket: its word, its lock, and the words of its block under the lock.
ghost use Rattle.std.specs.Prelude.{◌≡◌, [], ◌∷◌, Some, slice_index};
ghost use Rattle.bihash_words.specs.Sizes.{sizes_of};
ghost use Rattle.bihash_steps.specs.BucketCalls.{FindsBucket, IsValidated, MayLock, TriesLock, HasEntered};
ghost use Rattle.bihash_steps.specs.BucketSteps.{IsLockedWord, with_lock, stored_in, HoldsClean, without_lock, MayAnswer, view_after_answer, MayMark, view_after_write, IsOpenWord, with_reading, MayValidate};
ghost use Rattle.bihash_steps.specs.StoreSteps.{MayReplace, view_after_replace};
ghost use Rattle.bihash_rule.specs.declared.view.LockedBucket.{LockedBucket};
ghost use Rattle.bihash_steps.specs.Seats.{Becomes, IsAt, with_view};

use crate::row_and_callers::{CallerSeat, Row};
use bihash_rule::Extent;
use bihash_words::{BlockSize, BucketWord, Shape};

mod bucket_step_kinds;

pub use bucket_step_kinds::Calling;
use bucket_step_kinds::{
    Answers, LockedStores, LockedWords, Locks, OpenWords, Publishes, Releases, Replaces, Sees,
    Validates,
};

impl<S: Shape> Row<S> {
    /// A step that loads the word of a bucket. A lone caller that holds no lock finds it unlocked.
    pub fn load_bucket(&self, caller: &mut CallerSeat<S>, bucket: usize) -> BucketWord
        requires at { IsAt (sizes_of S.Shape) self.now caller.old bucket }
        ensures { FindsBucket (sizes_of S.Shape) caller.old caller.new bucket result }
    {
        let shared = &self.table.shared;
        BucketWord::of(shared.load::<Sees<S>>(&mut caller.seat, self.bucket_at(bucket)))
    }

    /// Sets the lock bit of a bucket from exactly this unlocked word, and says whether it stood there. A
    /// lone caller that has just loaded the word finds it. What was read since the word was loaded holds
    /// under the lock.
    pub fn lock_from(&self, caller: &mut CallerSeat<S>, bucket: usize, word: BucketWord) -> bool
        requires at { IsAt (sizes_of S.Shape) self.now caller.old bucket }
        requires may { MayLock caller.old.view word }
        ensures { TriesLock (sizes_of S.Shape) caller.old caller.new bucket word result }
    {
        let at = self.bucket_at(bucket);
        let open = word.to_word();
        let locked = word.with_lock().to_word();
        let shared = &self.table.shared;
        shared.compare_exchange::<Locks<S>>(&mut caller.seat, at, open, locked) == open
    }

    /// A step on a bucket that the caller has locked: loads word k of its block, which begins at this page.
    pub fn load_locked(&self, caller: &mut CallerSeat<S>, page: u64, k: usize) -> u64
        requires own { caller.old.row ≡ self.now }
        requires word { IsLockedWord (sizes_of S.Shape) caller.old.view page k }
        ensures same { caller.new ≡ caller.old }
        ensures value { (l : LockedBucket) → caller.old.view.holds.bucket ≡ Some l → result ≡ slice_index l.now k }
    {
        let shared = &self.table.shared;
        shared.load::<LockedWords<S>>(&mut caller.seat, self.page_at(page, k))
    }

    /// A step on a bucket that the caller has locked: stores word k of its block, which begins at this page.
    pub fn store_locked(&self, caller: &mut CallerSeat<S>, page: u64, k: usize, word: u64)
        requires own { caller.old.row ≡ self.now }
        requires word { IsLockedWord (sizes_of S.Shape) caller.old.view page k }
        ensures { (l : LockedBucket) → caller.old.view.holds.bucket ≡ Some l
            → caller.new ≡ with_view caller.old (with_lock caller.old.view (Some (stored_in l k word))) }
    {
        let shared = &self.table.shared;
        shared.store::<LockedStores<S>>(&mut caller.seat, self.page_at(page, k), word);
    }

    /// Word k of the block that was noted when a bucket was found open, which begins at this page.
    pub fn load_open(&self, caller: &mut CallerSeat<S>, page: u64, k: usize) -> u64
        requires own { caller.old.row ≡ self.now }
        requires word { IsOpenWord (sizes_of S.Shape) caller.old.view page k }
        ensures { caller.new ≡ with_view caller.old (with_reading caller.old.view ((k, result) ∷ [])) }
    {
        let shared = &self.table.shared;
        shared.load::<OpenWords<S>>(&mut caller.seat, self.page_at(page, k))
    }

    /// Loads the word of a bucket again, and says whether it is the word that was noted. There the call that `E`
    /// names, which is no write, is answered: the caller's proof picks it by what is told. A lone caller finds
    /// the word.
    pub fn validate<E: Calling, T>(
        &self,
        caller: &mut CallerSeat<S>,
        bucket: usize,
        word: BucketWord,
        _told: &T,
    ) -> bool
        requires at { IsAt (sizes_of S.Shape) self.now caller.old bucket }
        requires may { MayValidate (sizes_of S.Shape) caller.old.view bucket word E.call }
        ensures { IsValidated (sizes_of S.Shape) caller.old caller.new E.call result }
    {
        let shared = &self.table.shared;
        let here = shared.load::<Validates<S, E>>(&mut caller.seat, self.bucket_at(bucket));
        if here != word.to_word() {
            return false;
        }
        let stamp = word.version();
        caller.stamp = Some((bucket as u64, stamp));
        true
    }

    /// Opens the lock of a bucket in whose block nothing was stored, without an answer.
    pub fn release(&self, caller: &mut CallerSeat<S>, bucket: usize, word: BucketWord)
        requires at { IsAt (sizes_of S.Shape) self.now caller.old bucket }
        requires clean { HoldsClean caller.old.view bucket word }
        ensures { Becomes (sizes_of S.Shape) caller.old (without_lock caller.old.view) caller.new }
    {
        let shared = &self.table.shared;
        shared.store::<Releases<S>>(&mut caller.seat, self.bucket_at(bucket), word.to_word());
    }

    /// Opens the lock of a bucket in whose block nothing was stored: it is the answer of the call that `E`
    /// names, which is no write. The caller's proof picks it by what is told.
    pub fn cancel<E: Calling, T>(
        &self,
        caller: &mut CallerSeat<S>,
        bucket: usize,
        word: BucketWord,
        _told: &T,
    )
        requires at { IsAt (sizes_of S.Shape) self.now caller.old bucket }
        requires may { MayAnswer (sizes_of S.Shape) caller.old.view bucket word E.call }
        ensures { HasEntered (sizes_of S.Shape) caller.old (view_after_answer caller.old.view E.call) E.call caller.new }
    {
        let shared = &self.table.shared;
        shared.store::<Answers<S, E>>(&mut caller.seat, self.bucket_at(bucket), word.to_word());
        caller.stamp = Some((bucket as u64, word.version()));
    }

    /// Stores the next word of a bucket over its block as it is now, which has this linear mark from then on: it
    /// is the write of the call that `E` names. The caller's proof picks it by what is told.
    pub fn publish<E: Calling, T>(
        &self,
        caller: &mut CallerSeat<S>,
        bucket: usize,
        word: BucketWord,
        linear: bool,
        _told: &T,
    )
        requires at { IsAt (sizes_of S.Shape) self.now caller.old bucket }
        requires may { MayMark (sizes_of S.Shape) caller.old.view bucket word linear E.call }
        ensures { HasEntered (sizes_of S.Shape) caller.old (view_after_write caller.old.view E.call) E.call caller.new }
    {
        self.is_sound();
        let size = BlockSize {
            log2: word.log2(),
            linear,
        };
        let next = word.next(word.page(), size);
        let shared = &self.table.shared;
        shared.store::<Publishes<S, E>>(&mut caller.seat, self.bucket_at(bucket), next.to_word());
        caller.stamp = Some((bucket as u64, word.version() + 1));
    }

    /// Stores the next word of a bucket, with the block that the caller holds or, where it holds none,
    /// without a block: it is the write of the call that `E` names. The caller's proof picks it by what is told.
    /// The caller holds the block that the bucket had.
    pub fn publish_block<E: Calling, T>(
        &self,
        caller: &mut CallerSeat<S>,
        bucket: usize,
        word: BucketWord,
        extent: Extent,
        _told: &T,
    )
        requires at { IsAt (sizes_of S.Shape) self.now caller.old bucket }
        requires may { MayReplace (sizes_of S.Shape) caller.old.view bucket word extent E.call }
        ensures { HasEntered (sizes_of S.Shape) caller.old (view_after_replace caller.old.view E.call) E.call caller.new }
    {
        let shared = &self.table.shared;
        let next = word.next(extent.page, extent.size);
        shared.store::<Replaces<S, E>>(&mut caller.seat, self.bucket_at(bucket), next.to_word());
        caller.stamp = Some((bucket as u64, word.version() + 1));
    }
}
