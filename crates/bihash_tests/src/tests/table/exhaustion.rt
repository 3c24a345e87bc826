//! Tables that run out of writes and pages.
use super::Call::{Add, AddIfAbsent, Remove, Search, Touch};
use super::{Row, add_keys_to_table, block, first_wrong, table_refused};
use bihash_table::create;
use bihash_words::Reply::{Changed, Kept, NoPages, Worn};
use bihash_words::Tiny;
use std::test::Fail;

// Exhaustion of writes: a bucket whose writes are used up refuses changes alone, and the other one is written.
#[test]
fn worn(rt: HostRuntime) -> Result<(), Fail> {
    let Ok((table, mut caller)) = create::<Tiny<8, 3>>(rt.alloc()) else {
        return table_refused();
    };
    const ROWS: [Row; 10] = [
        (Add(7), [0, 0], Changed(None), (0, 1)),
        (Add(8), [0, 0], Changed(Some(7)), (0, 2)),
        (Touch(9), [0, 0], Changed(Some(8)), (0, 3)),
        (Add(10), [0, 0], Worn(Some(9)), (0, 3)),
        (Add(1), [2, 0], Worn(None), (0, 3)),
        (Add(9), [0, 0], Kept(Some(9)), (0, 3)),
        (AddIfAbsent(6), [0, 0], Kept(Some(9)), (0, 3)),
        (Remove, [4, 0], Kept(None), (0, 3)),
        (Search, [0, 0], Kept(Some(9)), (0, 3)),
        (Add(5), [1, 0], Changed(None), (1, 1)),
    ];
    assert!(rt; first_wrong(&table, &mut caller, &ROWS) == None);
    Ok(())
}

// Exhaustion of pages: no larger block is to be had, but the page that a removed pair left is taken again.
#[test]
fn pages_used_up(rt: HostRuntime) -> Result<(), Fail> {
    let Ok((table, mut caller)) = create::<Tiny<2, 1000>>(rt.alloc()) else {
        return table_refused();
    };
    assert!(rt; add_keys_to_table(&table, &mut caller, &[0, 2, 4, 6, 1]));
    assert!(rt; block(&table, &mut caller, 1) == (2, 0, false));
    const REMOVED: [Row; 1] = [(Remove, [1, 0], Changed(Some(1)), (1, 2))];
    assert!(rt; first_wrong(&table, &mut caller, &REMOVED) == None);
    assert!(rt; block(&table, &mut caller, 1) == (0, 0, false));
    const ROWS: [Row; 2] = [
        (Add(8), [8, 0], NoPages { log2: 1, left: 0 }, (0, 4)),
        (Add(9), [1, 0], Changed(None), (1, 3)),
    ];
    assert!(rt; first_wrong(&table, &mut caller, &ROWS) == None);
    assert!(rt; block(&table, &mut caller, 1) == (2, 0, false));
    Ok(())
}
