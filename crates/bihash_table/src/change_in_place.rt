//! Changes that a bucket's block has room for.
ghost use Rattle.std.specs.Prelude.{◌≡◌, ◌≢◌, ◌<◌, ◌+◌, ◌*◌, true, None, Some, Ok, IfOk};
ghost use Rattle.bihash_words.specs.Sizes.{sizes_of};
ghost use Rattle.bihash_words.specs.declared.patch.Change.TheVariants.{Set, Remove};
ghost use Rattle.bihash_words.specs.declared.patch.Reply.TheVariants.{Changed};
ghost use Rattle.bihash_rule.specs.Words.{place_words};
ghost use Rattle.bihash_steps.specs.BucketSteps.{with_lock, stored_in};
ghost use Rattle.bihash_rule.specs.declared.view.LockedBucket.{LockedBucket};
ghost use Rattle.bihash_steps.specs.Seats.{with_view};
ghost use Rattle.bihash_table.specs.inner.Locked.{HasLock, HasPlace, IsPairBeside, IsPlaceForNew, UnderLock};
ghost use Rattle.bihash_table.specs.inner.OpenReads.{IsPairIn};
ghost use Rattle.bihash_table.specs.inner.Seen.{WantsChange};
ghost use Rattle.bihash_table.specs.inner.Stores.{FindsWord, HasStored, HoldsWord};
ghost use Rattle.bihash_table.specs.Tries.{Finished, Tried};

use crate::block_place_count::FREE;
use crate::bucket_lock::lock_if_unchanged;
use crate::change_of_block::remove_last;
use crate::contended::Contended;
use crate::hashed_key::SeenBucket;
use crate::open_bucket_search::has_other_in_open_bucket;
use bihash_steps::{CallerSeat, Event, Row};
use bihash_words::{BucketWord, Change, Reply, Shape};
use std::marker::Brand;

/// Changes a pair of the locked bucket's block in place: it gets another value.
pub(crate) fn overwrite<S: Shape>(
    row: &Row<S>,
    seat: &mut CallerSeat<S>,
    seen: &SeenBucket<'_, S>,
    pair: (usize, u64),
    value: u64,
) -> Reply
    requires held { UnderLock ⟦<S as Shape>⟧ row.now seat.old seen.now (Set value) (λ z key. IsPairIn z key (Some pair)) }
    requires other { value ≢ pair.1 }
    ensures told { Finished ⟦<S as Shape>⟧ seat.old seat.new seen.now.hashed.key.now (Some pair.1) (Set value) (Ok result) }
    ensures made { result ≡ Changed (Some pair.1) }
{
    store_word(row, seat, seen.word, pair.0, S::WORDS, value);
    let event = Event {
        key: seen.hashed.key,
        found: Some(pair.1),
        change: Change::Set(value),
        reply: Reply::Changed(Some(pair.1)),
    };
    row.publish::<Brand, Event<'_, S>>(
        seat,
        seen.hashed.bucket,
        seen.word,
        seen.word.linear(),
        &event,
    );
    Reply::Changed(Some(pair.1))
}

/// Enters a pair of a new key in place, at a free place of the locked bucket's block.
pub(crate) fn fill<S: Shape>(
    row: &Row<S>,
    seat: &mut CallerSeat<S>,
    seen: &SeenBucket<'_, S>,
    place: usize,
    value: u64,
) -> Reply
    requires { UnderLock ⟦<S as Shape>⟧ row.now seat.old seen.now (Set value) (λ z key. IsPlaceForNew z key place) }
    ensures told { Finished ⟦<S as Shape>⟧ seat.old seat.new seen.now.hashed.key.now None (Set value) (Ok result) }
    ensures made { result ≡ Changed None }
{
    store_key(row, seat, seen, place);
    store_word(row, seat, seen.word, place, S::WORDS, value);
    let event = Event {
        key: seen.hashed.key,
        found: None,
        change: Change::Set(value),
        reply: Reply::Changed(None),
    };
    row.publish::<Brand, Event<'_, S>>(
        seat,
        seen.hashed.bucket,
        seen.word,
        seen.word.linear(),
        &event,
    );
    Reply::Changed(None)
}

/// Removes the key's pair: in place where the bucket has another one, and else with its block.
#[inline(always)]
pub(crate) fn remove<S: Shape>(
    row: &Row<S>,
    seat: &mut CallerSeat<S>,
    seen: &SeenBucket<'_, S>,
    pair: (usize, u64),
) -> Result<Reply, Contended>
    requires { WantsChange ⟦<S as Shape>⟧ row.now seat.old seen.now (Some pair) Remove }
    ensures told { Tried ⟦<S as Shape>⟧ seat.old seat.new seen.now.hashed.key.now (Some pair.1) Remove result }
    ensures made { IfOk result (λ reply. reply ≡ Changed (Some pair.1)) }
{
    let other = has_other_in_open_bucket(row, seat, seen.word, pair.0);
    if !lock_if_unchanged(row, seat, seen.hashed.bucket, seen.word) {
        return Err(Contended);
    }
    if !other {
        return remove_last(row, seat, seen, pair);
    }
    Ok(vacate(row, seat, seen, pair))
}

/// Removes a pair in place: frees its place in the locked bucket's block, where another pair is left.
pub(crate) fn vacate<S: Shape>(
    row: &Row<S>,
    seat: &mut CallerSeat<S>,
    seen: &SeenBucket<'_, S>,
    pair: (usize, u64),
) -> Reply
    requires { UnderLock ⟦<S as Shape>⟧ row.now seat.old seen.now Remove (λ z key. IsPairBeside z key pair true) }
    ensures told { Finished ⟦<S as Shape>⟧ seat.old seat.new seen.now.hashed.key.now (Some pair.1) Remove (Ok result) }
    ensures made { result ≡ Changed (Some pair.1) }
{
    store_word(row, seat, seen.word, pair.0, S::WORDS, FREE);
    let event = Event {
        key: seen.hashed.key,
        found: Some(pair.1),
        change: Change::Remove,
        reply: Reply::Changed(Some(pair.1)),
    };
    row.publish::<Brand, Event<'_, S>>(
        seat,
        seen.hashed.bucket,
        seen.word,
        seen.word.linear(),
        &event,
    );
    Reply::Changed(Some(pair.1))
}

// Stores a key in place, in the locked bucket's block, but not the words that stand there: a freed place shows the key
// that it had, and a store costs far more than a load.
pub(crate) fn store_key<S: Shape>(
    row: &Row<S>,
    seat: &mut CallerSeat<S>,
    seen: &SeenBucket<'_, S>,
    place: usize,
)
    requires { HasPlace ⟦<S as Shape>⟧ row.now seat.old seen.now place }
    ensures same { seat.new ≡ with_view seat.old seat.new.view }
    ensures stored { (l : LockedBucket) → HasLock (sizes_of S.Shape) seat.old.view seen.now.hashed.bucket seen.now.word l
        → HasStored (sizes_of S.Shape) seat.old.view seat.new.view l place (S.words_of seen.now.hashed.key.now) S.WORDS }
{
    for i in 0..S::WORDS {
        let part = S::word(seen.hashed.key, i);
        if word_before_change(row, seat, seen.word, place, i) == part {
            continue;
        }
        store_word(row, seat, seen.word, place, i, part);
    }
}

// Word i of a place of the locked bucket's block, which is changed in place.
fn word_before_change<S: Shape>(
    row: &Row<S>,
    seat: &mut CallerSeat<S>,
    word: BucketWord,
    place: usize,
    i: usize,
) -> u64
    requires { HoldsWord (sizes_of S.Shape) row.now seat.old word place i }
    ensures { FindsWord (sizes_of S.Shape) seat.old seat.new place i result }
{
    row.is_sound();
    row.load_locked(seat, word.page(), place * (S::WORDS + 1) + i)
}

// Stores word i of a place of the locked bucket's block, which is changed in place.
pub(crate) fn store_word<S: Shape>(
    row: &Row<S>,
    seat: &mut CallerSeat<S>,
    word: BucketWord,
    place: usize,
    i: usize,
    value: u64,
)
    requires { HoldsWord (sizes_of S.Shape) row.now seat.old word place i }
    ensures { (l : LockedBucket) → seat.old.view.holds.bucket ≡ Some l → seat.new ≡ with_view seat.old
        (with_lock seat.old.view (Some (stored_in l (place * place_words (sizes_of S.Shape) + i) value))) }
{
    row.is_sound();
    row.store_locked(seat, word.page(), place * (S::WORDS + 1) + i, value);
}
