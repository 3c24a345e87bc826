//! Blocks that are taken from the page store and given back, under the allocation lock.
ghost use Rattle.std.specs.Prelude.{◌≡◌, ◌≤◌, Some, None};
ghost use Rattle.bihash_words.specs.Sizes.{sizes_of};
ghost use Rattle.bihash_steps.specs.Seats.{with_view};
ghost use Rattle.bihash_steps.specs.StoreSteps.{holding, relisted};
ghost use Rattle.bihash_rule.specs.declared.view.LockedStore.{LockedStore};
ghost use Rattle.bihash_rule.specs.declared.view.HeldBlock.{HeldBlock};
ghost use Rattle.bihash_table.specs.inner.Copying.{MayGiveBack, MayGiveBackBlock};
ghost use Rattle.bihash_table.specs.inner.Taking.{HoldsLarger, MayTake, TellsCutDown, TellsLargerTake, TellsTake};

use crate::shared_table::Sessions;
use bihash_steps::{CallerSeat, PoolWord, Row};
use bihash_words::Shape;

/// Takes a block of `2^log2` pages and says at which page it begins: the last that was returned, or pages
/// that were never used, or in a table that cuts blocks the first pages of a larger one. `Err` says how many pages that
/// were never used are left, where they are fewer.
pub(crate) fn take_block<S: Shape>(
    table: &Sessions<S>,
    seat: &mut CallerSeat<S>,
    log2: u64,
) -> Result<u64, u64>
    requires { MayTake (sizes_of S.Shape) table.now.row seat.old log2 }
    ensures { TellsTake (sizes_of S.Shape) table.now.cuts_blocks seat.old seat.new log2 result }
{
    let row = &table.row;
    let returned = row.pool_load(seat, PoolWord::Count(log2));
    if returned > 0 {
        let page = row.pool_load(seat, PoolWord::Listed(log2, returned - 1));
        row.pool_take_returned(seat, log2, returned - 1);
        return Ok(page);
    }
    let used = row.pool_load(seat, PoolWord::Used);
    let left = S::PAGES - used;
    if left >= 1u64 << log2 {
        row.pool_take_unused(seat, log2, used);
        return Ok(used + 1);
    }
    if !table.cuts_blocks {
        return Err(left);
    }
    match take_larger(row, seat, log2) {
        Some(page) => Ok(page),
        None => Err(left),
    }
}

/// Takes the last returned block of the smallest size above `2^log2` pages that has one, and cuts it: says at which page
/// the first `2^log2` pages of it begin. `None`: no larger block was returned.
fn take_larger<S: Shape>(row: &Row<S>, seat: &mut CallerSeat<S>, log2: u64) -> Option<u64>
    requires { MayTake (sizes_of S.Shape) row.now seat.old log2 }
    ensures { TellsLargerTake (sizes_of S.Shape) seat.old seat.new log2 result }
{
    for larger in log2 + 1..S::MAX_LOG2 + 1 {
        let returned = row.pool_load(seat, PoolWord::Count(larger));
        if returned > 0 {
            let page = row.pool_load(seat, PoolWord::Listed(larger, returned - 1));
            row.pool_take_returned(seat, larger, returned - 1);
            cut_down(row, seat, page, larger, log2);
            return Some(page);
        }
    }
    None
}

/// Cuts the block of `2^from` pages that the caller holds, which begins at this page, until it has `2^log2`: each time the
/// second half goes after the last returned block of its size.
fn cut_down<S: Shape>(row: &Row<S>, seat: &mut CallerSeat<S>, page: u64, from: u64, log2: u64)
    requires held { HoldsLarger (sizes_of S.Shape) row.now seat.old page from }
    requires smaller { log2 ≤ from }
    ensures { TellsCutDown (sizes_of S.Shape) seat.old seat.new page from log2 }
{
    let mut size = from;
    'halves: while size > log2 {
        size -= 1;
        let returned = row.pool_load(seat, PoolWord::Count(size));
        row.pool_list(seat, size, returned, page + (1 << size));
        row.pool_cut(seat, size, returned);
    }
}

/// Gives back the block of `2^log2` pages that the caller holds, which begins at this page.
pub(crate) fn give_back<S: Shape>(row: &Row<S>, seat: &mut CallerSeat<S>, log2: u64, page: u64)
    requires { MayGiveBackBlock (sizes_of S.Shape) row.now seat.old log2 page }
    ensures { (n : LockedStore) (h : HeldBlock) → MayGiveBack seat.old.view log2 page n h → seat.new ≡ with_view seat.old
        (holding seat.old.view (Some (record { store = relisted n.store log2 page; listed = None })) None) }
{
    let count = row.pool_load(seat, PoolWord::Count(log2));
    row.pool_list(seat, log2, count, page);
    row.pool_return(seat, log2, count);
}
