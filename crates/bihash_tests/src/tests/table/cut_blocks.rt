//! Larger returned blocks that are cut for smaller ones, beside tables that cut none.
ghost use Rattle.std.specs.Prelude.{◌≡◌};
ghost use Rattle.bihash_rule.specs.Views.{nothing_held};

use super::Call::{Add, Remove};
use super::{Row, add_keys_to_table, block, first_wrong, has, table_answer, table_refused};
use bihash_table::{Caller, Sessions, create, create_cutting};
use bihash_words::Reply::{Changed, NoPages};
use bihash_words::Tiny;
use std::test::Fail;

// For tests of cut blocks: removes keys of these numbers, each with its number as value.
fn remove_keys_from_table<const P: u64>(
    table: &Sessions<Tiny<P, 1000>>,
    caller: &mut Caller<Tiny<P, 1000>>,
    keys: &[u32],
) -> bool
    requires own { caller.old.seat.row ≡ table.now.row }
    requires free { caller.old.seat.view.holds ≡ nothing_held }
    ensures own { caller.new.seat.row ≡ table.now.row }
    ensures free { caller.new.seat.view.holds ≡ nothing_held }
{
    let mut all_gone = true;
    for key in keys {
        let key = u64::from(*key);
        let reply = table_answer(table, caller, Remove, &[key, 0]);
        all_gone &= reply == Ok(Changed(Some(key)));
    }
    all_gone
}

// For tests of cut blocks: a block of four pages is returned, and the only page that is left is filled with these four keys.
// Then each page of a table of five was used.
fn four_pages_returned(
    table: &Sessions<Tiny<5, 1000>>,
    caller: &mut Caller<Tiny<5, 1000>>,
    kept: &[u32],
) -> bool
    requires own { caller.old.seat.row ≡ table.now.row }
    requires free { caller.old.seat.view.holds ≡ nothing_held }
    ensures own { caller.new.seat.row ≡ table.now.row }
    ensures free { caller.new.seat.view.holds ≡ nothing_held }
{
    const SPREAD: [u32; 5] = [0, 4, 8, 12, 16];
    let mut all_done = add_keys_to_table(table, caller, &SPREAD);
    all_done &= remove_keys_from_table(table, caller, &SPREAD);
    all_done &= add_keys_to_table(table, caller, kept);
    all_done
}

// Cut blocks: pages 2 to 5 were one block. Bucket 1 gets page 2 of them, page 3 and the block of pages 4 and 5 are returned,
// and bucket 0 grows into these two. Then none of two pages is left, nor a larger one.
#[test]
fn block_of_four_pages_is_cut_until_no_larger_is_left(rt: HostRuntime) -> Result<(), Fail> {
    let Ok((table, mut caller)) = create_cutting::<Tiny<5, 1000>>(rt.alloc()) else {
        return table_refused();
    };
    assert!(rt; four_pages_returned(&table, &mut caller, &[0, 8, 16, 24]));
    assert!(rt; block(&table, &mut caller, 0) == (1, 0, false));
    assert!(rt; add_keys_to_table(&table, &mut caller, &[1]));
    assert!(rt; block(&table, &mut caller, 1) == (2, 0, false));
    assert!(rt; add_keys_to_table(&table, &mut caller, &[32, 9, 17, 25]));
    assert!(rt; block(&table, &mut caller, 0) == (4, 1, true));
    let refused = table_answer(&table, &mut caller, Add(33), &[33, 0]);
    assert!(rt; refused == Ok(NoPages { log2: 1, left: 0 }));
    assert!(rt; has(&table, &mut caller, &[0, 8, 16, 24, 32, 1, 9, 17, 25]));
    Ok(())
}

// Blocks that aren't cut: one page is refused, once, and the block of four pages is there for bucket 0, whose page then serves
// bucket 1.
#[test]
fn block_of_four_pages_stays_whole(rt: HostRuntime) -> Result<(), Fail> {
    let Ok((table, mut caller)) = create::<Tiny<5, 1000>>(rt.alloc()) else {
        return table_refused();
    };
    assert!(rt; four_pages_returned(&table, &mut caller, &[0, 4, 8, 12]));
    const ROWS: [Row; 3] = [
        (Add(1), [1, 0], NoPages { log2: 0, left: 0 }, (1, 0)),
        (Add(16), [16, 0], Changed(None), (0, 15)),
        (Add(1), [1, 0], Changed(None), (1, 1)),
    ];
    assert!(rt; first_wrong(&table, &mut caller, &ROWS) == None);
    assert!(rt; block(&table, &mut caller, 0) == (2, 2, false));
    Ok(())
}

// Cut blocks, by the same calls: the one page is cut from the block of four, and bucket 0 is refused these again and again,
// also once the page is back, since pieces never merge.
#[test]
fn block_that_was_cut_is_wanting(rt: HostRuntime) -> Result<(), Fail> {
    let Ok((table, mut caller)) = create_cutting::<Tiny<5, 1000>>(rt.alloc()) else {
        return table_refused();
    };
    assert!(rt; four_pages_returned(&table, &mut caller, &[0, 4, 8, 12]));
    const ROWS: [Row; 5] = [
        (Add(1), [1, 0], Changed(None), (1, 1)),
        (Add(16), [16, 0], NoPages { log2: 2, left: 0 }, (0, 14)),
        (Add(16), [16, 0], NoPages { log2: 2, left: 0 }, (0, 14)),
        (Remove, [1, 0], Changed(Some(1)), (1, 2)),
        (Add(16), [16, 0], NoPages { log2: 2, left: 0 }, (0, 14)),
    ];
    assert!(rt; first_wrong(&table, &mut caller, &ROWS) == None);
    Ok(())
}
