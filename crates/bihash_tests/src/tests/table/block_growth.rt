//! Block growth, by the worked rows of one caller: blocks that grow and turn linear.
use super::Call::{Add, Remove, Search};
use super::{Eight, Row, add_keys_to_table, block, first_wrong, has, table_refused};
use bihash_table::create;
use bihash_words::Reply::{Changed, Kept};
use bihash_words::Tiny;
use std::test::Fail;

// Block growth: the block of a bucket grows from one page to two.
#[test]
fn block_grows_to_two_pages(rt: HostRuntime) -> Result<(), Fail> {
    let Ok((table, mut caller)) = create::<Eight>(rt.alloc()) else {
        return table_refused();
    };
    const ADDED: [Row; 5] = [
        (Add(100), [0, 0], Changed(None), (0, 1)),
        (Add(101), [2, 0], Changed(None), (0, 2)),
        (Add(102), [4, 0], Changed(None), (0, 3)),
        (Add(103), [6, 0], Changed(None), (0, 4)),
        (Add(104), [8, 0], Changed(None), (0, 5)),
    ];
    assert!(rt; first_wrong(&table, &mut caller, &ADDED) == None);
    assert!(rt; block(&table, &mut caller, 0) == (2, 1, false));
    const FOUND: [Row; 5] = [
        (Search, [0, 0], Kept(Some(100)), (0, 5)),
        (Search, [2, 0], Kept(Some(101)), (0, 5)),
        (Search, [4, 0], Kept(Some(102)), (0, 5)),
        (Search, [6, 0], Kept(Some(103)), (0, 5)),
        (Search, [8, 0], Kept(Some(104)), (0, 5)),
    ];
    assert!(rt; first_wrong(&table, &mut caller, &FOUND) == None);
    Ok(())
}

// Block growth: the block of a bucket grows from one page to four, since its keys don't fit two.
#[test]
fn block_grows_to_four_pages(rt: HostRuntime) -> Result<(), Fail> {
    let Ok((table, mut caller)) = create::<Eight>(rt.alloc()) else {
        return table_refused();
    };
    assert!(rt; add_keys_to_table(&table, &mut caller, &[0, 4, 8, 12, 16]));
    assert!(rt; block(&table, &mut caller, 0) == (2, 2, false));
    assert!(rt; has(&table, &mut caller, &[0, 4, 8, 12, 16]));
    Ok(())
}

// Block growth: keys that all name one page get a linear block, where the others are found once one is removed.
#[test]
fn block_grows_linear(rt: HostRuntime) -> Result<(), Fail> {
    let Ok((table, mut caller)) = create::<Eight>(rt.alloc()) else {
        return table_refused();
    };
    assert!(rt; add_keys_to_table(&table, &mut caller, &[0, 8, 16, 24, 32]));
    assert!(rt; block(&table, &mut caller, 0) == (2, 1, true));
    assert!(rt; has(&table, &mut caller, &[0, 8, 16, 24, 32]));
    const ROWS: [Row; 2] = [
        (Remove, [8, 0], Changed(Some(8)), (0, 6)),
        (Search, [8, 0], Kept(None), (0, 6)),
    ];
    assert!(rt; first_wrong(&table, &mut caller, &ROWS) == None);
    assert!(rt; has(&table, &mut caller, &[0, 16, 24, 32]));
    Ok(())
}

// Block growth at the limit: a block of four pages is laid out anew as a linear one, in the last four pages that were
// never used.
#[test]
fn block_turns_linear_at_limit(rt: HostRuntime) -> Result<(), Fail> {
    let Ok((table, mut caller)) = create::<Tiny<9, 1000>>(rt.alloc()) else {
        return table_refused();
    };
    assert!(rt; add_keys_to_table(&table, &mut caller, &[0, 4, 8, 12, 16, 24, 32]));
    assert!(rt; block(&table, &mut caller, 0) == (6, 2, true));
    assert!(rt; has(&table, &mut caller, &[0, 4, 8, 12, 16, 24, 32]));
    Ok(())
}
