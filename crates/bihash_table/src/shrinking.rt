//! Removals by ageing, after which a bucket has a smaller block where its other pairs fit one.
ghost use Rattle.std.specs.Prelude.{◌≡◌, ◌*◌, ◌^◌, Some, Ok, length};
ghost use Rattle.bihash_words.specs.Sizes.{sizes_of};
ghost use Rattle.bihash_words.specs.declared.patch.Change.TheVariants.{Remove};
ghost use Rattle.bihash_table.specs.inner.Laid.{IsLaidWithout, LeavesOut};
ghost use Rattle.bihash_table.specs.inner.Seen.{WantsChange};
ghost use Rattle.bihash_table.specs.inner.Taking.{MayTryBlock, TellsBlockTry};
ghost use Rattle.bihash_table.specs.Tries.{Finished, Tried};

use crate::block_place_count::{FREE, place_count, places_of};
use crate::bucket_lock::lock_if_unchanged;
use crate::change_in_place::{remove, vacate};
use crate::change_of_block::end_block_change;
use crate::contended::Contended;
use crate::hashed_key::SeenBucket;
use crate::page_allocation::take_block;
use crate::read_places::read_block;
use crate::shared_table::Sessions;
use crate::write_places::write_block;
use bihash_plan::{lay_kept, smaller};
use bihash_rule::Extent;
use bihash_steps::{Caller, CallerSeat, Event};
use bihash_words::{BlockSize, Change, Reply, Shape};
use std::marker::Brand;

/// Removes the key's pair as `remove` does. In a table that cuts blocks the bucket changes to the smallest block that takes
/// its other pairs, if that is smaller than its own and is to be had.
#[inline(never)]
pub(crate) fn remove_and_shrink<S: Shape>(
    table: &Sessions<S>,
    caller: &mut Caller<S>,
    seen: &SeenBucket<'_, S>,
    pair: (usize, u64),
) -> Result<Reply, Contended>
    requires { WantsChange ⟦<S as Shape>⟧ table.now.row caller.old.seat seen.now (Some pair) Remove }
    ensures { Tried ⟦<S as Shape>⟧ caller.old.seat caller.new.seat seen.now.hashed.key.now (Some pair.1) Remove result }
{
    let seat = &mut caller.seat;
    if !table.cuts_blocks || seen.word.log2() == 0 {
        return remove(&table.row, seat, seen, pair);
    }
    let scratch = &mut caller.scratch;
    let old = &mut scratch.old_places;
    let new = &mut scratch.new_places;
    remove_by_plan(table, seat, seen, pair, old, new)
}

// Removes the key's pair by a change to a smaller block, where one is planned, and else as `remove` does. The lists have
// room for all pairs of a bucket, as they stand and as they will stand.
fn remove_by_plan<S: Shape>(
    table: &Sessions<S>,
    seat: &mut CallerSeat<S>,
    seen: &SeenBucket<'_, S>,
    pair: (usize, u64),
    old: &mut [(S::Key, u64)],
    new: &mut [(S::Key, u64)],
) -> Result<Reply, Contended>
    requires wants { WantsChange ⟦<S as Shape>⟧ table.now.row seat.old seen.now (Some pair) Remove }
    requires room { (length old.old ≡ 4 * 2 ^ S.MAX_LOG2) × (length new.old ≡ 4 * 2 ^ S.MAX_LOG2) }
    ensures { Tried ⟦<S as Shape>⟧ seat.old seat.new seen.now.hashed.key.now (Some pair.1) Remove result }
{
    let row = &table.row;
    row.is_sound();
    let old = &mut old[..place_count::<S>(seen.word)];
    read_block(row, seat, seen.word, old);
    leave_out(old, pair.0);
    let Some(log2) = smaller::<S>(old, seen.word.log2()) else {
        return remove(row, seat, seen, pair);
    };
    let new = &mut new[..places_of(log2)];
    lay_kept::<S>(old, seen.hashed.key, log2, new);
    if !lock_if_unchanged(row, seat, seen.hashed.bucket, seen.word) {
        return Err(Contended);
    }
    Ok(shrink_or_vacate(table, seat, seen, pair, log2, new))
}

// Frees a place of a copy of a block, if the copy has that place.
fn leave_out<K: Copy>(places: &mut [(K, u64)], gone: usize)
    ensures { LeavesOut places.old gone places.new }
{
    if places.len() <= gone {
        return;
    }
    places[gone] = (places[gone].0, FREE);
}

// Removes the key's pair: the locked bucket gets a block of `2^log2` pages, in which its other pairs are laid out. Where
// none is to be had, the pair is removed in place.
fn shrink_or_vacate<S: Shape>(
    table: &Sessions<S>,
    seat: &mut CallerSeat<S>,
    seen: &SeenBucket<'_, S>,
    pair: (usize, u64),
    log2: u64,
    block: &[(S::Key, u64)],
) -> Reply
    requires { IsLaidWithout ⟦<S as Shape>⟧ table.now.row seat.old seen.now pair log2 block.now }
    ensures { Finished ⟦<S as Shape>⟧ seat.old seat.new seen.now.hashed.key.now (Some pair.1) Remove (Ok result) }
{
    let row = &table.row;
    row.is_sound();
    let Some(page) = try_take_block(table, seat, log2) else {
        return vacate(row, seat, seen, pair);
    };
    write_block(row, seat, page, block);
    let linear = false;
    let extent = Extent {
        page,
        size: BlockSize { log2, linear },
    };
    let event = Event {
        key: seen.hashed.key,
        found: Some(pair.1),
        change: Change::Remove,
        reply: Reply::Changed(Some(pair.1)),
    };
    row.publish_block::<Brand, Event<'_, S>>(seat, seen.hashed.bucket, seen.word, extent, &event);
    end_block_change(row, seat, seen.word);
    Reply::Changed(Some(pair.1))
}

// Takes the allocation lock and a block of `2^log2` pages, and says at which page it begins. `None`: another caller has
// that lock, or there is no such block; the caller holds what it held.
fn try_take_block<S: Shape>(table: &Sessions<S>, seat: &mut CallerSeat<S>, log2: u64) -> Option<u64>
    requires { MayTryBlock (sizes_of S.Shape) table.now.row seat.old log2 }
    ensures { TellsBlockTry (sizes_of S.Shape) seat.old seat.new log2 result }
{
    let row = &table.row;
    row.is_sound();
    if !row.pool_lock(seat) {
        return None;
    }
    match take_block(table, seat, log2) {
        Ok(page) => Some(page),
        Err(_) => {
            row.pool_unlock(seat);
            None
        }
    }
}
