//! A table that ends with pairs.

use super::Call::{Add, Remove};
use super::{Row, ends_with, first_wrong, table_refused};
use bihash_table::create;
use bihash_words::Reply::Changed;
use bihash_words::Tiny;
use std::test::Fail;

// Eight pages, and 64 writes to a bucket.
type Small = Tiny<8, 64>;

// Closing: the pairs of both buckets are sorted by their keys, whichever was written first.
#[test]
fn pairs_come_in_the_order_of_their_words(rt: HostRuntime) -> Result<(), Fail> {
    let Ok((table, mut caller)) = create::<Small>(rt.alloc()) else {
        return table_refused();
    };
    const ROWS: [Row; 10] = [
        (Add(1), [2, 1], Changed(None), (0, 1)),
        (Add(2), [256, 0], Changed(None), (0, 2)),
        (Add(3), [1, 1 << 63], Changed(None), (1, 1)),
        (Add(4), [1, 2], Changed(None), (1, 2)),
        (Add(5), [0, u64::MAX], Changed(None), (0, 3)),
        (Add(6), [u64::MAX, 0], Changed(None), (1, 3)),
        (Add(7), [1, 256], Changed(None), (1, 4)),
        (Add(8), [0, 3], Changed(None), (0, 4)),
        (Add(9), [1, 1], Changed(None), (1, 5)),
        (Remove, [1, 2], Changed(Some(4)), (1, 6)),
    ];
    assert!(rt; first_wrong(&table, &mut caller, &ROWS) == None);
    const SORTED: [([u64; 2], u64); 8] = [
        ([0, 3], 8),
        ([0, u64::MAX], 5),
        ([1, 1], 9),
        ([1, 256], 7),
        ([1, 1 << 63], 3),
        ([2, 1], 1),
        ([256, 0], 2),
        ([u64::MAX, 0], 6),
    ];
    assert!(rt; ends_with(rt.alloc(), table, caller, &SORTED));
    Ok(())
}
