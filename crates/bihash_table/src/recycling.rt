//! A new pair in a full bucket: it takes the place of an expired one, or is refused.
ghost use Rattle.std.specs.Prelude.{◌≡◌, ◌⊎◌, None, IfOk};
ghost use Rattle.bihash_words.specs.declared.patch.Change.TheVariants.{Set};
ghost use Rattle.bihash_words.specs.declared.patch.Reply.TheVariants.{Changed, Full};
ghost use Rattle.bihash_table.specs.Tries.{FinishedOver};
ghost use Rattle.bihash_table.specs.inner.Locked.{TakesPlace, UnderLock};
ghost use Rattle.bihash_table.specs.inner.Seen.{MayRefuse, TriedToEnter, WantsPlace};

use crate::bucket_lock::lock_if_unchanged;
use crate::change_in_place::{store_key, store_word};
use crate::contended::Contended;
use crate::entered_value::Entrant;
use crate::hashed_key::SeenBucket;
use bihash_plan::recycle;
use bihash_steps::{CallerSeat, Event, Row};
use bihash_words::{Change, Expiry, Reply, Shape};
use std::marker::Brand;

/// A place of the block, the key of the pair that is there, and whether any place may hold any key once it is gone.
#[derive(Drop)]
pub(crate) struct Going<'k, S: Shape> {
    pub(crate) place: usize,
    pub(crate) key: &'k S::Key,
    pub(crate) linear: bool,
}

/// Enters a pair of a new key in the place of the expired pair with the least key. Where none of these places has an
/// expired pair, the call is refused.
pub(crate) fn recycle_or_refuse<S: Shape, E: Expiry>(
    row: &Row<S>,
    seat: &mut CallerSeat<S>,
    seen: &SeenBucket<'_, S>,
    entrant: &Entrant<'_, E>,
    places: &[(S::Key, u64)],
) -> Result<Reply, Contended>
    requires { WantsPlace ⟦<S as Shape>⟧ row.now seat.old seen.now entrant.now.value places.now }
    ensures told { TriedToEnter ⟦<S as Shape>⟧ ⟦<E as Expiry>⟧ seat.old seat.new seen.now entrant.now result }
    ensures made { IfOk result (λ reply. (reply ≡ Full) ⊎ (reply ≡ Changed None)) }
{
    row.is_sound();
    let size = seen.word.block_size();
    let Some(spare) = recycle::<S, E>(places, size, seen.hashed.key, entrant.expiry) else {
        return refuse_to_recycle(row, seat, seen, entrant);
    };
    if !lock_if_unchanged(row, seat, seen.hashed.bucket, seen.word) {
        return Err(Contended);
    }
    let going = Going {
        place: spare.place,
        key: &places[spare.place].0,
        linear: spare.linear,
    };
    Ok(recycle_place(row, seat, seen, entrant, &going))
}

/// Refuses a new key for which no expired pair can be recycled, where the bucket still has the word that was seen.
fn refuse_to_recycle<S: Shape, E: Expiry>(
    row: &Row<S>,
    seat: &mut CallerSeat<S>,
    seen: &SeenBucket<'_, S>,
    entrant: &Entrant<'_, E>,
) -> Result<Reply, Contended>
    requires { MayRefuse ⟦<S as Shape>⟧ row.now seat.old seen.now entrant.now.value (E.is_expired entrant.now.expiry.now) }
    ensures told { TriedToEnter ⟦<S as Shape>⟧ ⟦<E as Expiry>⟧ seat.old seat.new seen.now entrant.now result }
    ensures made { IfOk result (λ reply. reply ≡ Full) }
{
    let event = Event {
        key: seen.hashed.key,
        found: None,
        change: Change::Set(entrant.value),
        reply: Reply::Full,
    };
    let refusal = (event, entrant.expiry);
    if !row.validate::<Brand, (Event<'_, S>, &E)>(seat, seen.hashed.bucket, seen.word, &refusal) {
        return Err(Contended);
    }
    Ok(Reply::Full)
}

/// Enters a pair of a new key by recycling the place of an expired one.
fn recycle_place<S: Shape, E: Expiry>(
    row: &Row<S>,
    seat: &mut CallerSeat<S>,
    seen: &SeenBucket<'_, S>,
    entrant: &Entrant<'_, E>,
    going: &Going<'_, S>,
) -> Reply
    requires { UnderLock ⟦<S as Shape>⟧ row.now seat.old seen.now (Set entrant.now.value) (λ z key. TakesPlace z key
        (S.words_of going.now.key.now) (E.is_expired entrant.now.expiry.now) going.now.linear going.now.place) }
    ensures told { FinishedOver ⟦<S as Shape>⟧ seat.old seat.new seen.now.hashed.key.now None (Set entrant.now.value)
        (E.is_expired entrant.now.expiry.now) result }
    ensures made { result ≡ Changed None }
{
    store_key(row, seat, seen, going.place);
    store_word(row, seat, seen.word, going.place, S::WORDS, entrant.value);
    let event = Event {
        key: seen.hashed.key,
        found: None,
        change: Change::Set(entrant.value),
        reply: Reply::Changed(None),
    };
    let recycled = (event, going.key, entrant.expiry);
    row.publish::<Brand, (Event<'_, S>, &S::Key, &E)>(
        seat,
        seen.hashed.bucket,
        seen.word,
        going.linear,
        &recycled,
    );
    Reply::Changed(None)
}
