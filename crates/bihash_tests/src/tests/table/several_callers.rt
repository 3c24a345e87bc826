//! The worked rows of several callers.
ghost use Rattle.std.specs.Prelude.{◌≡◌, IfSome};
ghost use Rattle.bihash_rule.specs.Views.{nothing_held};

use super::Call::{Add, Remove, Search};
use super::{Call, Eight, Row, ends_with, first_wrong, table_answer, table_refused, two_callers};
use bihash_table::{Caller, CloseFault, Contended, Sessions, SplitFault, create, stamp};
use bihash_words::Reply::{Changed, Kept};
use bihash_words::Shape;
use std::alloc::Global;
use std::test::Fail;

// Several callers: as many splits as a table may have succeed at once, each after the other, and no further one.
#[test]
fn all_callers_split(rt: HostRuntime) -> Result<(), Fail> {
    let Ok((table, mut caller)) = create::<Eight>(rt.alloc()) else {
        return table_refused();
    };
    'splits: for _ in 1..64u32 {
        let Ok((old, _)) = table.split(rt.alloc(), caller) else {
            return table_refused();
        };
        caller = old;
    }
    let Err((fault, _)) = table.split(rt.alloc(), caller) else {
        return Err("a sixty-fifth caller was made")?;
    };
    assert!(rt; fault == SplitFault::Numbers);
    Ok(())
}

// For the test of callers that join: the table, which can't be closed while there is the second caller, and
// both callers joined. `None`: it was closed.
fn table_stays_open<S: Shape>(
    alloc: Global,
    table: Sessions<S>,
    first: Caller<S>,
    second: Caller<S>,
) -> Option<(Sessions<S>, Caller<S>)>
    requires own { (first.seat.row ≡ table.row) × (second.seat.row ≡ table.row) }
    requires free { (first.seat.view.holds ≡ nothing_held) × (second.seat.view.holds ≡ nothing_held) }
    ensures own { IfSome result (λ r. r.1.seat.row ≡ r.0.row) }
    ensures free { IfSome result (λ r. r.1.seat.view.holds ≡ nothing_held) }
{
    match table.close(alloc, first) {
        Err((CloseFault::Strangers, table, first)) => {
            let both = table.join(first, second);
            Some((table, both))
        }
        _ => None,
    }
}

// Several callers: one is lone, and may end the table, once the other is joined into it.
#[test]
fn two_callers_join_to_close(rt: HostRuntime) -> Result<(), Fail> {
    let Some((table, mut first, second)) = two_callers::<Eight>(rt.alloc()) else {
        return table_refused();
    };
    const ADDED: [Row; 1] = [(Add(5), [2, 0], Changed(None), (0, 1))];
    assert!(rt; first_wrong(&table, &mut first, &ADDED) == None);
    assert!(rt; !table.is_lone(&mut first));
    let Some((table, mut both)) = table_stays_open(rt.alloc(), table, first, second) else {
        return table_refused();
    };
    assert!(rt; table.is_lone(&mut both));
    assert!(rt; ends_with(rt.alloc(), table, both, &[([2, 0], 5)]));
    Ok(())
}

// For tests of several callers: drops a caller that has the lock of bucket 0, and the allocation lock where that is
// asked for. False: it did not get one of them.
fn drop_caller_with_locks(
    table: &Sessions<Eight>,
    mut caller: Caller<Eight>,
    and_pool: bool,
) -> bool
    requires own { caller.seat.row ≡ table.now.row }
    requires free { caller.seat.view.holds ≡ nothing_held }
{
    let row = &table.row;
    let seat = &mut caller.seat;
    let word = row.load_bucket(seat, 0);
    if word.locked() {
        return false;
    }
    row.lock_from(seat, 0, word) && (!and_pool || row.pool_lock(seat))
}

// Several callers: one that has a bucket's lock and is dropped holds up that bucket alone.
#[test]
fn dropped_caller_keeps_lock(rt: HostRuntime) -> Result<(), Fail> {
    let Some((table, mut first, second)) = two_callers::<Eight>(rt.alloc()) else {
        return table_refused();
    };
    assert!(rt; drop_caller_with_locks(&table, second, false));
    assert!(rt; table_answer(&table, &mut first, Search, &[0, 0]) == Err(Contended));
    assert!(rt; table_answer(&table, &mut first, Remove, &[0, 0]) == Err(Contended));
    assert!(rt; stamp(&first) == None);
    const ADDED: [Row; 1] = [(Add(3), [1, 0], Changed(None), (1, 1))];
    assert!(rt; first_wrong(&table, &mut first, &ADDED) == None);
    let Err((fault, _, _)) = table.close(rt.alloc(), first) else {
        return Err("the table was closed under a stranger")?;
    };
    assert!(rt; fault == CloseFault::Strangers);
    Ok(())
}

// Several callers: one that has both locks and is dropped holds up who needs a block, but no search of other buckets.
#[test]
fn dropped_caller_keeps_pool(rt: HostRuntime) -> Result<(), Fail> {
    let Some((table, mut first, second)) = two_callers::<Eight>(rt.alloc()) else {
        return table_refused();
    };
    assert!(rt; drop_caller_with_locks(&table, second, true));
    assert!(rt; table_answer(&table, &mut first, Add(3), &[1, 0]) == Err(Contended));
    assert!(rt; stamp(&first) == None);
    const FOUND: [Row; 1] = [(Search, [1, 0], Kept(None), (1, 0))];
    assert!(rt; first_wrong(&table, &mut first, &FOUND) == None);
    Ok(())
}

// Several callers: two that met keep their stamps and numbers, and each finds what the other one wrote.
#[test]
fn callers_that_met_keep_their_stamps(rt: HostRuntime) -> Result<(), Fail> {
    let Some((table, mut first, mut second)) = two_callers::<Eight>(rt.alloc()) else {
        return table_refused();
    };
    const BY_FIRST: [Row; 1] = [(Call::Add(7), [0, 0], Changed(None), (0, 1))];
    assert!(rt; first_wrong(&table, &mut first, &BY_FIRST) == None);
    const BY_SECOND: [Row; 2] = [
        (Call::Add(9), [1, 0], Changed(None), (1, 1)),
        (Call::Add(8), [1, 0], Changed(Some(9)), (1, 2)),
    ];
    assert!(rt; first_wrong(&table, &mut second, &BY_SECOND) == None);
    let (mut first, mut second) = table.meet(first, second);
    assert!(rt; (stamp(&first), stamp(&second)) == (Some((0, 1)), Some((1, 2))));
    assert!(rt; (first.seat.numbers(), second.seat.numbers()) == (1, 1));
    const FOUND_BY_FIRST: [Row; 1] = [(Call::Search, [1, 0], Kept(Some(8)), (1, 2))];
    assert!(rt; first_wrong(&table, &mut first, &FOUND_BY_FIRST) == None);
    const FOUND_BY_SECOND: [Row; 1] = [(Call::Search, [0, 0], Kept(Some(7)), (0, 1))];
    assert!(rt; first_wrong(&table, &mut second, &FOUND_BY_SECOND) == None);
    Ok(())
}
