//! Expired pairs that go bucket by bucket.
ghost use Rattle.std.specs.Prelude.{◌≡◌};
ghost use Rattle.std.specs.Thread.{IsSync};
ghost use Rattle.bihash_rule.specs.Views.{nothing_held};

use super::Call::{Add, Remove, Search, Touch};
use super::{
    BelowHundred, Row, add_keys_to_table, block, first_wrong, table_answer, table_refused,
    two_callers,
};
use bihash_table::{Caller, Sessions, create, create_cutting};
use bihash_words::Reply::{Changed, Kept, NoPages};
use bihash_words::Tiny;
use std::sync::Wait;
use std::test::Fail;
use std::thread::{Threads, join};

// One page, and 100000 writes to a bucket.
type OnePage = Tiny<1, 100000>;

// Ageing: a sweep gives the page of expired pairs back to a table that had none left, and a value that isn't expired
// stays, with its page. Once another bucket has that page, the first one is refused its pairs.
#[test]
fn a_sweep_gives_pages_back(rt: HostRuntime) -> Result<(), Fail> {
    let Ok((table, mut caller)) = create::<OnePage>(rt.alloc()) else {
        return table_refused();
    };
    let caller = &mut caller;
    const FILLED: [Row; 4] = [
        (Add(7), [0, 0], Changed(None), (0, 1)),
        (Add(107), [2, 0], Changed(None), (0, 2)),
        (Add(8), [4, 0], Changed(None), (0, 3)),
        (Add(9), [1, 0], NoPages { log2: 0, left: 0 }, (1, 0)),
    ];
    assert!(rt; first_wrong(&table, caller, &FILLED) == None);
    assert!(rt; table.sweep(&rt, caller, 0, 2, &BelowHundred) == 2);
    const LIVE: [Row; 5] = [
        (Search, [0, 0], Kept(None), (0, 5)),
        (Search, [4, 0], Kept(None), (0, 5)),
        (Search, [2, 0], Kept(Some(107)), (0, 5)),
        (Add(9), [1, 0], NoPages { log2: 0, left: 0 }, (1, 0)),
        (Touch(3), [2, 0], Changed(Some(107)), (0, 6)),
    ];
    assert!(rt; first_wrong(&table, caller, &LIVE) == None);
    assert!(rt; table.sweep(&rt, caller, 1, 2, &BelowHundred) == 0);
    assert!(rt; table.sweep(&rt, caller, 0, 1, &BelowHundred) == 1);
    assert!(rt; block(&table, caller, 0) == (0, 0, false));
    const AGAIN: [Row; 2] = [
        (Add(9), [1, 0], Changed(None), (1, 1)),
        (Add(7), [0, 0], NoPages { log2: 0, left: 0 }, (0, 7)),
    ];
    assert!(rt; first_wrong(&table, caller, &AGAIN) == None);
    Ok(())
}

// Five pairs of bucket 0, which want four pages. One isn't expired.
const FOUR_PAGES: [Row; 5] = [
    (Add(107), [0, 0], Changed(None), (0, 1)),
    (Add(7), [4, 0], Changed(None), (0, 2)),
    (Add(8), [8, 0], Changed(None), (0, 3)),
    (Add(9), [12, 0], Changed(None), (0, 4)),
    (Add(10), [16, 0], Changed(None), (0, 5)),
];

// Ageing in a table that cuts blocks: a bucket that keeps pairs changes to the smallest block that takes them, and
// another bucket takes the one that it had.
#[test]
fn a_bucket_shrinks_as_its_pairs_expire(rt: HostRuntime) -> Result<(), Fail> {
    let Ok((table, mut caller)) = create_cutting::<Tiny<8, 1000>>(rt.alloc()) else {
        return table_refused();
    };
    let caller = &mut caller;
    assert!(rt; first_wrong(&table, caller, &FOUR_PAGES) == None);
    assert!(rt; block(&table, caller, 0) == (2, 2, false));
    assert!(rt; table.try_expire(caller, 0, &BelowHundred) == Ok(Some(Changed(Some(8)))));
    assert!(rt; block(&table, caller, 0) == (1, 0, false));
    const KEPT: [Row; 5] = [
        (Search, [0, 0], Kept(Some(107)), (0, 6)),
        (Search, [4, 0], Kept(Some(7)), (0, 6)),
        (Search, [8, 0], Kept(None), (0, 6)),
        (Search, [12, 0], Kept(Some(9)), (0, 6)),
        (Search, [16, 0], Kept(Some(10)), (0, 6)),
    ];
    assert!(rt; first_wrong(&table, caller, &KEPT) == None);
    assert!(rt; table.sweep(&rt, caller, 0, 1, &BelowHundred) == 3);
    assert!(rt; block(&table, caller, 0) == (1, 0, false));
    assert!(rt; add_keys_to_table(&table, caller, &[1, 5, 9, 13, 17]));
    assert!(rt; block(&table, caller, 1) == (2, 2, false));
    const LAST: [Row; 1] = [(Search, [0, 0], Kept(Some(107)), (0, 9))];
    assert!(rt; first_wrong(&table, caller, &LAST) == None);
    Ok(())
}

// Ageing where the smaller block isn't to be had: the pair goes in place, and with the next one the bucket has a smaller
// block, once a page is free. A table that cuts no blocks keeps the larger one.
#[test]
fn a_bucket_keeps_its_block_where_no_page_is_free(rt: HostRuntime) -> Result<(), Fail> {
    let Ok((table, mut caller)) = create_cutting::<Tiny<5, 1000>>(rt.alloc()) else {
        return table_refused();
    };
    let caller = &mut caller;
    assert!(rt; first_wrong(&table, caller, &FOUR_PAGES) == None);
    assert!(rt; table_answer(&table, caller, Add(1), &[1, 0]) == Ok(Changed(None)));
    assert!(rt; table.try_expire(caller, 0, &BelowHundred) == Ok(Some(Changed(Some(8)))));
    assert!(rt; block(&table, caller, 0) == (2, 2, false));
    assert!(rt; table_answer(&table, caller, Remove, &[1, 0]) == Ok(Changed(Some(1))));
    assert!(rt; table.try_expire(caller, 0, &BelowHundred) == Ok(Some(Changed(Some(10)))));
    assert!(rt; block(&table, caller, 0) == (1, 0, false));
    let Ok((whole, mut other)) = create::<Tiny<8, 1000>>(rt.alloc()) else {
        return table_refused();
    };
    assert!(rt; first_wrong(&whole, &mut other, &FOUR_PAGES) == None);
    assert!(rt; whole.sweep(&rt, &mut other, 0, 1, &BelowHundred) == 4);
    assert!(rt; block(&whole, &mut other, 0) == (2, 2, false));
    Ok(())
}

// Ageing by two threads: each enters the only pair of a bucket again and again, where there is one page for both, and
// sweeps both buckets. Each pair that was entered goes once.
#[test]
fn two_threads_enter_and_sweep(rt: HostRuntime) -> Result<(), Fail> {
    let Some((table, first, second)) = two_callers::<OnePage>(rt.alloc()) else {
        return table_refused();
    };
    let (mut all, entered, went) = enter_and_sweep_both(&rt, &table, first, second);
    assert!(rt; entered == went);
    assert!(rt; entered > 0);
    // The page is not lost.
    assert!(rt; table_answer(&table, &mut all, Add(9), &[1, 0]) == Ok(Changed(None)));
    Ok(())
}

// For the test of two threads that sweep: both callers, joined after their rounds, how many pairs they entered, and how
// many went.
fn enter_and_sweep_both<R: Threads + Wait + Sync>(
    rt: &R,
    table: &Sessions<OnePage>,
    first: Caller<OnePage>,
    second: Caller<OnePage>,
) -> (Caller<OnePage>, u64, u64)
    requires own { (first.seat.row ≡ table.now.row) × (second.seat.row ≡ table.now.row) }
    requires free { (first.seat.view.holds ≡ nothing_held) × (second.seat.view.holds ≡ nothing_held) }
    ensures own { result.0.seat.row ≡ table.now.row }
    ensures free { result.0.seat.view.holds ≡ nothing_held }
{
    let (one, two) = join(
        rt,
        || -> (Caller<OnePage>, u64, u64)
            requires { IsSync R.row × (first.seat.row ≡ table.now.row) × (first.seat.view.holds ≡ nothing_held) }
            ensures { (result.0.seat.row ≡ table.entry.now.row) × (result.0.seat.view.holds ≡ nothing_held) }
        { enter_and_sweep(table, rt, first, 0) },
        || -> (Caller<OnePage>, u64, u64)
            requires { IsSync R.row × (second.seat.row ≡ table.now.row) × (second.seat.view.holds ≡ nothing_held) }
            ensures { (result.0.seat.row ≡ table.entry.now.row) × (result.0.seat.view.holds ≡ nothing_held) }
        { enter_and_sweep(table, rt, second, 1) },
    );
    let both = table.join(one.0, two.0);
    (both, one.1.wrapping_add(two.1), one.2.wrapping_add(two.2))
}

// For the test of two threads that sweep: the caller, how often the key was entered, where a page was left for it, and
// how many pairs went by the sweeps of both buckets.
fn enter_and_sweep<R: Wait>(
    table: &Sessions<OnePage>,
    rt: &R,
    mut caller: Caller<OnePage>,
    key: u64,
) -> (Caller<OnePage>, u64, u64)
    requires own { caller.seat.row ≡ table.now.row }
    requires free { caller.seat.view.holds ≡ nothing_held }
    ensures own { result.0.seat.row ≡ table.now.row }
    ensures free { result.0.seat.view.holds ≡ nothing_held }
{
    let mut entered: u64 = 0;
    let mut went: u64 = 0;
    'rounds: for _ in 0..10_000u32 {
        if table.add(rt, &mut caller, &[key, 0], 7) == Changed(None) {
            entered = entered.wrapping_add(1);
        }
        went = went.wrapping_add(table.sweep(rt, &mut caller, 0, 2, &BelowHundred));
    }
    (caller, entered, went)
}
