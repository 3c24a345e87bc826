//! Changes that give a bucket another block, or none.
ghost use Rattle.std.specs.Prelude.{◌≡◌, ◌*◌, ◌^◌, true, false, length, None, Some, IfOk};
ghost use Rattle.bihash_words.specs.Sizes.{sizes_of};
ghost use Rattle.bihash_words.specs.declared.patch.Change.TheVariants.{Set, Remove};
ghost use Rattle.bihash_words.specs.declared.patch.Reply.TheVariants.{Changed};
ghost use Rattle.bihash_steps.specs.Seats.{with_view};
ghost use Rattle.bihash_table.specs.OutOfPages.{LacksLarger};
ghost use Rattle.bihash_table.specs.inner.Copying.{GivenBack, MayLeave, Released};
ghost use Rattle.bihash_table.specs.inner.Laid.{IsLaidFor};
ghost use Rattle.bihash_table.specs.inner.Locked.{IsPairBeside, UnderLock};
ghost use Rattle.bihash_table.specs.inner.Seen.{TriedToEnter, WantsRoom};
ghost use Rattle.bihash_table.specs.Tries.{Finished};

use crate::block_place_count::{place_count, places_of};
use crate::bucket_lock::lock_if_unchanged;
use crate::contended::Contended;
use crate::entered_value::Entrant;
use crate::hashed_key::SeenBucket;
use crate::page_allocation::{give_back, take_block};
use crate::read_places::read_block;
use crate::recycling::recycle_or_refuse;
use crate::shared_table::Sessions;
use crate::write_places::write_block;
use bihash_plan::{Plan, larger, lay};
use bihash_rule::Extent;
use bihash_steps::{Caller, CallerSeat, Event, Row};
use bihash_words::{BlockSize, BucketWord, Change, Expiry, Reply, Shape};
use std::marker::Brand;

/// Enters a new pair that finds no place in the block that was seen: the bucket changes to a larger block, or an
/// expired pair makes room, or the call is refused.
#[inline(never)]
pub(crate) fn enter_larger<S: Shape, E: Expiry>(
    table: &Sessions<S>,
    caller: &mut Caller<S>,
    seen: &SeenBucket<'_, S>,
    entrant: &Entrant<'_, E>,
) -> Result<Reply, Contended>
    requires { WantsRoom ⟦<S as Shape>⟧ table.now.row caller.old.seat seen.now entrant.now.value }
    ensures told { TriedToEnter ⟦<S as Shape>⟧ ⟦<E as Expiry>⟧ caller.old.seat caller.new.seat seen.now entrant.now result }
    ensures no_larger { table.now.cuts_blocks ≡ true → IfOk result (LacksLarger (sizes_of S.Shape) caller.new.seat.view) }
{
    let seat = &mut caller.seat;
    let scratch = &mut caller.scratch;
    let old = &mut scratch.old_places;
    let new = &mut scratch.new_places;
    enter_by_block_change(table, seat, seen, entrant, old, new)
}

/// Enters a new pair by a change to a larger block, where the plan is one, and else recycles or refuses. The lists have
/// room for all pairs of a bucket, as they stand and as they will stand.
fn enter_by_block_change<S: Shape, E: Expiry>(
    table: &Sessions<S>,
    seat: &mut CallerSeat<S>,
    seen: &SeenBucket<'_, S>,
    entrant: &Entrant<'_, E>,
    old: &mut [(S::Key, u64)],
    new: &mut [(S::Key, u64)],
) -> Result<Reply, Contended>
    requires wants { WantsRoom ⟦<S as Shape>⟧ table.now.row seat.old seen.now entrant.now.value }
    requires room { (length old.old ≡ 4 * 2 ^ S.MAX_LOG2) × (length new.old ≡ 4 * 2 ^ S.MAX_LOG2) }
    ensures told { TriedToEnter ⟦<S as Shape>⟧ ⟦<E as Expiry>⟧ seat.old seat.new seen.now entrant.now result }
    ensures no_larger { table.now.cuts_blocks ≡ true → IfOk result (LacksLarger (sizes_of S.Shape) seat.new.view) }
{
    let row = &table.row;
    row.is_sound();
    let old = &mut old[..place_count::<S>(seen.word)];
    read_block(row, seat, seen.word, old);
    let Plan::Grow(size) = larger::<S>(old, seen.word.block_size(), seen.hashed.key) else {
        return recycle_or_refuse(row, seat, seen, entrant, old);
    };
    let new = &mut new[..places_of(size.log2)];
    lay::<S>(old, seen.hashed.key, entrant.value, size, new);
    if !lock_if_unchanged(row, seat, seen.hashed.bucket, seen.word) {
        return Err(Contended);
    }
    enter_in_new_block(table, seat, seen, entrant.value, size, new)
}

/// By a change of block the bucket gets one of this size, in which its pairs and the new one are laid out.
fn enter_in_new_block<S: Shape>(
    table: &Sessions<S>,
    seat: &mut CallerSeat<S>,
    seen: &SeenBucket<'_, S>,
    value: u64,
    size: BlockSize,
    block: &[(S::Key, u64)],
) -> Result<Reply, Contended>
    requires { IsLaidFor ⟦<S as Shape>⟧ table.now.row seat.old seen.now value size block.now }
    ensures told { Finished ⟦<S as Shape>⟧ seat.old seat.new seen.now.hashed.key.now None (Set value) result }
    ensures no_larger { table.now.cuts_blocks ≡ true → IfOk result (LacksLarger (sizes_of S.Shape) seat.new.view) }
{
    let row = &table.row;
    row.is_sound();
    let bucket = seen.hashed.bucket;
    let word = seen.word;
    let key = seen.hashed.key;
    if !row.pool_lock(seat) {
        row.release(seat, bucket, word);
        return Err(Contended);
    }
    match take_block(table, seat, size.log2) {
        Ok(page) => {
            write_block(row, seat, page, block);
            let extent = Extent { page, size };
            let event = Event {
                key,
                found: None,
                change: Change::Set(value),
                reply: Reply::Changed(None),
            };
            row.publish_block::<Brand, Event<'_, S>>(seat, bucket, word, extent, &event);
            end_block_change(row, seat, word);
            Ok(Reply::Changed(None))
        }
        Err(left) => {
            row.pool_unlock(seat);
            let reply = Reply::NoPages {
                log2: size.log2,
                left,
            };
            let event = Event {
                key,
                found: None,
                change: Change::Set(value),
                reply,
            };
            row.cancel::<Brand, Event<'_, S>>(seat, bucket, word, &event);
            Ok(reply)
        }
    }
}

/// Ends a change of block: gives back the one that the bucket of this word had, if any, and opens the allocation lock.
pub(crate) fn end_block_change<S: Shape>(row: &Row<S>, seat: &mut CallerSeat<S>, word: BucketWord)
    requires { MayLeave (sizes_of S.Shape) row.now seat.old word }
    ensures same { seat.new ≡ with_view seat.old seat.new.view }
    ensures left { Released seat.old.view seat.new.view }
{
    give_back_old(row, seat, word);
    row.pool_unlock(seat);
}

/// Gives back, after a change of block, the one that the bucket of this word had, if any.
fn give_back_old<S: Shape>(row: &Row<S>, seat: &mut CallerSeat<S>, word: BucketWord)
    requires { MayLeave (sizes_of S.Shape) row.now seat.old word }
    ensures { GivenBack seat.old seat.new }
{
    let page = word.page();
    if page == 0 {
        return;
    }
    give_back(row, seat, word.log2(), page);
}

/// Removes the last pair of a bucket, which changes from its block to none, and gives the block back.
#[inline(never)]
pub(crate) fn remove_last<S: Shape>(
    row: &Row<S>,
    seat: &mut CallerSeat<S>,
    seen: &SeenBucket<'_, S>,
    pair: (usize, u64),
) -> Result<Reply, Contended>
    requires { UnderLock ⟦<S as Shape>⟧ row.now seat.old seen.now Remove (λ z key. IsPairBeside z key pair false) }
    ensures told { Finished ⟦<S as Shape>⟧ seat.old seat.new seen.now.hashed.key.now (Some pair.1) Remove result }
    ensures made { IfOk result (λ reply. reply ≡ Changed (Some pair.1)) }
{
    row.is_sound();
    if !row.pool_lock(seat) {
        row.release(seat, seen.hashed.bucket, seen.word);
        return Err(Contended);
    }
    let none = Extent {
        page: 0,
        size: BlockSize {
            log2: 0,
            linear: false,
        },
    };
    let event = Event {
        key: seen.hashed.key,
        found: Some(pair.1),
        change: Change::Remove,
        reply: Reply::Changed(Some(pair.1)),
    };
    row.publish_block::<Brand, Event<'_, S>>(seat, seen.hashed.bucket, seen.word, none, &event);
    end_block_change(row, seat, seen.word);
    Ok(Reply::Changed(Some(pair.1)))
}
