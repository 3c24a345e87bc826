//! Updates, one try each.
ghost use Rattle.std.specs.Prelude.{◌≡◌, ◌≢◌, true, false, None, Some, IfOk};
ghost use Rattle.bihash_words.specs.Maps.{effect_of};
ghost use Rattle.bihash_words.specs.Patches.{IsStorable};
ghost use Rattle.bihash_words.specs.Sizes.{sizes_of};
ghost use Rattle.bihash_words.specs.declared.patch.Reply.TheVariants.{Changed};
ghost use Rattle.bihash_words.specs.declared.patch.Change.TheVariants.{Keep};
ghost use Rattle.bihash_steps.specs.CallerCalls.{IsIdle};
ghost use Rattle.bihash_table.specs.Calls.{TellsRecycleTry, TellsUpdateTry};
ghost use Rattle.bihash_table.specs.OutOfPages.{LacksLarger};
ghost use Rattle.bihash_table.specs.inner.OpenReads.{value_of};
ghost use Rattle.bihash_table.specs.inner.Seen.{Found, MayReply, WantsChange};
ghost use Rattle.bihash_table.specs.Tries.{Tried, TriedOver};

use crate::bucket_lock::{load_unlocked, lock_if_unchanged};
use crate::change_in_place::{fill, overwrite, remove};
use crate::change_of_block::enter_larger;
use crate::contended::Contended;
use crate::entered_value::Entrant;
use crate::hashed_key::{HashedKey, SeenBucket};
use crate::key_with_hash::KeyWithHash;
use crate::never_expired::Never;
use crate::open_bucket_search::{pair_in_open_bucket, room_in_open_bucket, value_found};
use crate::shared_table::Sessions;
use crate::worn_bucket::is_worn;
use bihash_steps::{Caller, CallerSeat, Event, Row};
use bihash_words::{Change, Expiry, Patch, Reply, Shape};
use std::marker::Brand;

impl<S: Shape> Sessions<S> {
    /// Decides once on the value of the key, and makes the change that was decided. The answers come in
    /// this order: `Contended`, `Kept`, `Worn`, `Full`, `NoPages`, `Changed`. The first four of them but
    /// `Contended` take no lock of a bucket.
    #[inline(always)]
    pub fn try_update<P: Patch>(
        &self,
        caller: &mut Caller<S>,
        key: &S::Key,
        patch: &P,
    ) -> Result<Reply, Contended>
        requires { IsIdle self.now.row caller.old.seat }
        ensures told { TellsUpdateTry ⟦<S as Shape>⟧ caller.old.seat caller.new.seat key.now (P.decision patch.now) result }
        ensures no_larger { self.now.cuts_blocks ≡ true → IfOk result (LacksLarger (sizes_of S.Shape) caller.new.seat.view) }
    {
        self.try_add_or_recycle(caller, &KeyWithHash::of(key), patch, &Never)
    }

    /// Tries an update once as `try_update` does, but where the answer would be `Full`, the new pair takes the place of
    /// the expired pair of the bucket with the least key by its words, first word first, and the answer is
    /// `Changed(None)`. It is `Full` where no pair of the bucket is expired.
    #[inline(always)]
    pub fn try_add_or_recycle<P: Patch, E: Expiry>(
        &self,
        caller: &mut Caller<S>,
        known: &KeyWithHash<'_, S>,
        patch: &P,
        expiry: &E,
    ) -> Result<Reply, Contended>
        requires { IsIdle self.now.row caller.old.seat }
        ensures told { TellsRecycleTry ⟦<S as Shape>⟧ caller.old.seat caller.new.seat known.now.key.now (P.decision patch.now)
            (E.is_expired expiry.now) result }
        ensures no_larger { self.now.cuts_blocks ≡ true → IfOk result (LacksLarger (sizes_of S.Shape) caller.new.seat.view) }
    {
        self.row.is_sound();
        let hashed = HashedKey::with_hash(known);
        let Some(word) = load_unlocked(&self.row, &mut caller.seat, hashed.bucket) else {
            return Err(Contended);
        };
        let pair = pair_in_open_bucket(&self.row, &mut caller.seat, word, &hashed);
        let found = value_found(pair);
        let change = patch.decide(found);
        let seen = SeenBucket { word, hashed };
        make_tried_change(self, caller, &seen, pair, change, expiry)
    }
}

// Makes the change that a try of an update decided on what it found, where it is one and the version isn't used up.
#[inline(always)]
fn make_tried_change<S: Shape, E: Expiry>(
    table: &Sessions<S>,
    caller: &mut Caller<S>,
    seen: &SeenBucket<'_, S>,
    pair: Option<(usize, u64)>,
    change: Change,
    expiry: &E,
) -> Result<Reply, Contended>
    requires found { Found ⟦<S as Shape>⟧ table.now.row caller.old.seat seen.now pair }
    requires storable { IsStorable change }
    ensures told { TriedOver ⟦<S as Shape>⟧ caller.old.seat caller.new.seat seen.now.hashed.key.now (value_of pair) change
        (E.is_expired expiry.now) result }
    ensures no_larger { table.now.cuts_blocks ≡ true → IfOk result (LacksLarger (sizes_of S.Shape) caller.new.seat.view) }
{
    let found = value_found(pair);
    let row = &table.row;
    let seat = &mut caller.seat;
    if is_idle(change, found) {
        return answer_try(row, seat, seen, found, change, Reply::Kept(found));
    }
    if is_worn::<S>(seen.word) {
        return answer_try(row, seat, seen, found, change, Reply::Worn(found));
    }
    match pair {
        Some(held) => change_pair(row, seat, seen, held, change),
        None => enter_new(table, caller, seen, change, expiry),
    }
}

// Whether the change that a try of an update decided on leaves what it found.
fn is_idle(change: Change, found: Option<u64>) -> bool
    ensures yes { result ≡ true → effect_of change found ≡ Keep }
    ensures no { result ≡ false → effect_of change found ≢ Keep }
{
    match (change, found) {
        (Change::Keep, _) => true,
        (Change::Set(value), Some(old)) => old == value,
        (Change::Remove, None) => true,
        _ => false,
    }
}

// Gives a reply that is no write and leaves the block in place, where the bucket still has the word that was seen.
pub(crate) fn answer_try<S: Shape>(
    row: &Row<S>,
    seat: &mut CallerSeat<S>,
    seen: &SeenBucket<'_, S>,
    found: Option<u64>,
    change: Change,
    reply: Reply,
) -> Result<Reply, Contended>
    requires { MayReply ⟦<S as Shape>⟧ row.now seat.old seen.now found change reply }
    ensures told { Tried ⟦<S as Shape>⟧ seat.old seat.new seen.now.hashed.key.now found change result }
    ensures given { IfOk result (λ answer. answer ≡ reply) }
{
    let event = Event {
        key: seen.hashed.key,
        found,
        change,
        reply,
    };
    if !row.validate::<Brand, Event<'_, S>>(seat, seen.hashed.bucket, seen.word, &event) {
        return Err(Contended);
    }
    Ok(reply)
}

// Gives another value to the pair that a try of an update found, or removes it.
#[inline(always)]
fn change_pair<S: Shape>(
    row: &Row<S>,
    seat: &mut CallerSeat<S>,
    seen: &SeenBucket<'_, S>,
    pair: (usize, u64),
    change: Change,
) -> Result<Reply, Contended>
    requires { WantsChange ⟦<S as Shape>⟧ row.now seat.old seen.now (Some pair) change }
    ensures told { Tried ⟦<S as Shape>⟧ seat.old seat.new seen.now.hashed.key.now (Some pair.1) change result }
    ensures made { IfOk result (λ reply. reply ≡ Changed (Some pair.1)) }
{
    match change {
        Change::Set(value) => {
            if !lock_if_unchanged(row, seat, seen.hashed.bucket, seen.word) {
                return Err(Contended);
            }
            Ok(overwrite(row, seat, seen, pair, value))
        }
        Change::Remove => remove(row, seat, seen, pair),
        Change::Keep => unreachable!(),
    }
}

// Enters a pair of a new key, as a try of an update decided: at a free place that is open to it, or in a larger block.
#[inline(always)]
fn enter_new<S: Shape, E: Expiry>(
    table: &Sessions<S>,
    caller: &mut Caller<S>,
    seen: &SeenBucket<'_, S>,
    change: Change,
    expiry: &E,
) -> Result<Reply, Contended>
    requires { WantsChange ⟦<S as Shape>⟧ table.now.row caller.old.seat seen.now None change }
    ensures told { TriedOver ⟦<S as Shape>⟧ caller.old.seat caller.new.seat seen.now.hashed.key.now None change
        (E.is_expired expiry.now) result }
    ensures no_larger { table.now.cuts_blocks ≡ true → IfOk result (LacksLarger (sizes_of S.Shape) caller.new.seat.view) }
{
    let Change::Set(value) = change else {
        unreachable!();
    };
    let row = &table.row;
    let seat = &mut caller.seat;
    match room_in_open_bucket(row, seat, seen.word, &seen.hashed) {
        Some(place) => {
            if !lock_if_unchanged(row, seat, seen.hashed.bucket, seen.word) {
                return Err(Contended);
            }
            Ok(fill(row, seat, seen, place, value))
        }
        None => enter_larger(table, caller, seen, &Entrant { value, expiry }),
    }
}
