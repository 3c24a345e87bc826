//! Ageing: expired pairs go, bucket by bucket, without an update of their keys.
ghost use Rattle.std.specs.Prelude.{◌≡◌, ◌<◌, ◌≤◌, ◌+◌, ◌^◌, true, IfSome, None, Some};
ghost use Rattle.bihash_words.specs.Sizes.{sizes_of};
ghost use Rattle.bihash_words.specs.declared.patch.Change.TheVariants.{Remove};
ghost use Rattle.bihash_rule.specs.Words.{buckets};
ghost use Rattle.bihash_steps.specs.CallerCalls.{IsIdle};
ghost use Rattle.bihash_table.specs.Ageing.{Sweeps, TellsExpire, TellsExpireTry, is_removal};
ghost use Rattle.bihash_table.specs.Tries.{Tried};
ghost use Rattle.bihash_table.specs.inner.ExpiredPairs.{FindsExpired, HasFoundExpired};
ghost use Rattle.bihash_table.specs.inner.OpenReads.{HasRead, MayRead};
ghost use Rattle.bihash_table.specs.inner.Seen.{Found};

use crate::block_place_count::{FREE, place_count};
use crate::bucket_lock::{is_unchanged, load_unlocked};
use crate::contended::Contended;
use crate::hashed_key::{HashedKey, SeenBucket};
use crate::open_bucket_search::load_word;
use crate::read_places::read_place;
use crate::shared_table::Sessions;
use crate::shrinking::remove_and_shrink;
use crate::try_update::answer_try;
use crate::worn_bucket::is_worn;
use bihash_steps::{Caller, CallerSeat, Row};
use bihash_words::{BucketWord, Change, Expiry, Reply, Shape};
use crossbeam_utils::Backoff;
use std::sync::Wait;

impl<S: Shape> Sessions<S> {
    /// Looks once at a bucket without its lock, and removes one expired pair that it finds there, by an update of its key:
    /// the answer is that of the update, `Changed` with the value that went, or `Worn`. `None`: no pair of the bucket was
    /// expired. There is no entry then, and no lock was taken.
    pub fn try_expire<E: Expiry>(
        &self,
        caller: &mut Caller<S>,
        bucket: usize,
        expiry: &E,
    ) -> Result<Option<Reply>, Contended>
        requires idle { IsIdle self.now.row caller.old.seat }
        requires inside { bucket < buckets (sizes_of S.Shape) }
        ensures { TellsExpireTry (sizes_of S.Shape) caller.old.seat caller.new.seat bucket (E.is_expired expiry.now) result }
    {
        let seat = &mut caller.seat;
        let Some(word) = load_unlocked(&self.row, seat, bucket) else {
            return Err(Contended);
        };
        match expired_in_open_bucket(&self.row, seat, word, expiry) {
            Some(pair) => remove_expired(self, caller, bucket, word, &pair, expiry),
            None => find_none_expired(&self.row, seat, bucket, word, expiry),
        }
    }

    /// A look at a bucket as `try_expire` takes it, which is tried again, after a wait, until no other caller holds the
    /// lock or changes the bucket meanwhile.
    pub fn expire<E: Expiry, R: Wait>(
        &self,
        rt: &R,
        caller: &mut Caller<S>,
        bucket: usize,
        expiry: &E,
    ) -> Option<Reply>
        requires idle { IsIdle self.now.row caller.old.seat }
        requires inside { bucket < buckets (sizes_of S.Shape) }
        ensures { TellsExpire (sizes_of S.Shape) caller.old.seat caller.new.seat bucket (E.is_expired expiry.now) result }
    {
        let backoff = Backoff::new();
        for _ in rt.forever() {
            if let Ok(found) = self.try_expire(caller, bucket, expiry) {
                return found;
            }
            backoff.snooze();
        }
        unreachable!()
    }

    /// Removes expired pairs of the buckets from one to before another, of each until it has none or its version is used
    /// up, and says how many went. It takes a lock for each that goes, and no other.
    pub fn sweep<E: Expiry, R: Wait>(
        &self,
        rt: &R,
        caller: &mut Caller<S>,
        from: usize,
        to: usize,
        expiry: &E,
    ) -> u64
        requires idle { IsIdle self.now.row caller.old.seat }
        requires order { from ≤ to }
        requires inside { to ≤ buckets (sizes_of S.Shape) }
        ensures { Sweeps (sizes_of S.Shape) caller.old.seat caller.new.seat from to (E.is_expired expiry.now) result }
    {
        self.row.is_sound();
        let mut went = 0;
        for bucket in from..to {
            went += self.expire_all(rt, caller, bucket, expiry);
        }
        went
    }

    // Removes expired pairs of a bucket until it has none or its version is used up, and says how many went.
    fn expire_all<E: Expiry, R: Wait>(
        &self,
        rt: &R,
        caller: &mut Caller<S>,
        bucket: usize,
        expiry: &E,
    ) -> u64
        requires idle { IsIdle self.now.row caller.old.seat }
        requires inside { bucket < buckets (sizes_of S.Shape) }
        ensures swept { Sweeps (sizes_of S.Shape) caller.old.seat caller.new.seat bucket (bucket + 1) (E.is_expired expiry.now) result }
        ensures few { result < 2 ^ 33 }
    {
        self.row.is_sound();
        let mut went = 0;
        for _ in rt.forever() {
            let found = self.expire(rt, caller, bucket, expiry);
            if !has_removed(found) {
                return went;
            }
            went += 1;
        }
        unreachable!()
    }
}

// Whether a look that came to this removed a pair.
fn has_removed(found: Option<Reply>) -> bool
    ensures { result ≡ is_removal found }
{
    match found {
        Some(Reply::Changed(_)) => true,
        Some(_) => false,
        None => false,
    }
}

// The first place of the open bucket's block that has an expired pair, and that pair. Of other places only the value is
// read.
fn expired_in_open_bucket<S: Shape, E: Expiry>(
    row: &Row<S>,
    seat: &mut CallerSeat<S>,
    word: BucketWord,
    expiry: &E,
) -> Option<(usize, S::Key, u64)>
    requires { MayRead (sizes_of S.Shape) row.now seat.old word 0 }
    ensures read { HasRead seat.old seat.new (FindsExpired ⟦<S as Shape>⟧ (E.is_expired expiry.now) result) }
    ensures expired { IfSome result (λ pair. (E.is_expired expiry.now pair.2 ≡ true) × (pair.2 < 2 ^ 64)) }
{
    row.is_sound();
    for place in 0..place_count::<S>(word) {
        let value = load_word(row, seat, word, place, S::WORDS);
        if value == FREE {
            continue;
        }
        if expiry.expired(value) {
            let (key, _) = read_place(row, seat, word, place);
            return Some((place, key, value));
        }
    }
    None
}

// Removes the expired pair that a look at the open bucket found, where the bucket has still the word that was seen. A key
// of another bucket was read of words that weren't the block's: the word has changed then.
fn remove_expired<S: Shape, E: Expiry>(
    table: &Sessions<S>,
    caller: &mut Caller<S>,
    bucket: usize,
    word: BucketWord,
    pair: &(usize, S::Key, u64),
    _told: &E,
) -> Result<Option<Reply>, Contended>
    requires { HasFoundExpired ⟦<S as Shape>⟧ table.now.row caller.old.seat bucket word (E.is_expired _told.now) (Some pair.now) }
    ensures { TellsExpireTry (sizes_of S.Shape) caller.old.seat caller.new.seat bucket (E.is_expired _told.now) result }
{
    let row = &table.row;
    row.is_sound();
    let (place, key, value) = *pair;
    let hashed = HashedKey::of(&key);
    if hashed.bucket != bucket {
        if is_unchanged(row, &mut caller.seat, bucket, word) {
            unreachable!();
        }
        return Err(Contended);
    }
    let seen = SeenBucket { word, hashed };
    match remove_unless_worn(table, caller, &seen, (place, value)) {
        Ok(reply) => Ok(Some(reply)),
        Err(refused) => Err(refused),
    }
}

// Removes the pair of the key that a look at the open bucket found there, unless the version is used up.
fn remove_unless_worn<S: Shape>(
    table: &Sessions<S>,
    caller: &mut Caller<S>,
    seen: &SeenBucket<'_, S>,
    pair: (usize, u64),
) -> Result<Reply, Contended>
    requires { Found ⟦<S as Shape>⟧ table.now.row caller.old.seat seen.now (Some pair) }
    ensures { Tried ⟦<S as Shape>⟧ caller.old.seat caller.new.seat seen.now.hashed.key.now (Some pair.1) Remove result }
{
    if is_worn::<S>(seen.word) {
        let row = &table.row;
        let found = Some(pair.1);
        let reply = Reply::Worn(found);
        return answer_try(row, &mut caller.seat, seen, found, Change::Remove, reply);
    }
    remove_and_shrink(table, caller, seen, pair)
}

// Answers a look that found no expired pair in the open bucket, where that has still the word that was seen. A bucket
// without a block had no pair when it was seen.
fn find_none_expired<S: Shape, E: Expiry>(
    row: &Row<S>,
    seat: &mut CallerSeat<S>,
    bucket: usize,
    word: BucketWord,
    _told: &E,
) -> Result<Option<Reply>, Contended>
    requires { HasFoundExpired ⟦<S as Shape>⟧ row.now seat.old bucket word (E.is_expired _told.now) None }
    ensures { TellsExpireTry (sizes_of S.Shape) seat.old seat.new bucket (E.is_expired _told.now) result }
{
    row.is_sound();
    if place_count::<S>(word) == 0 {
        return Ok(None);
    }
    if !is_unchanged(row, seat, bucket, word) {
        return Err(Contended);
    }
    Ok(None)
}
