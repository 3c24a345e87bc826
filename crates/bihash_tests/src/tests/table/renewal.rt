//! A table that is opened again, with versions used up.
ghost use Rattle.std.specs.Prelude.{◌≡◌, IfSome};
ghost use Rattle.bihash_rule.specs.Views.{nothing_held};

use super::Call::{Add, Search, Touch};
use super::{Row, first_wrong, table_refused};
use bihash_table::{Caller, Sessions, create, stamp};
use bihash_words::Reply::{Changed, Kept, Worn};
use bihash_words::{Shape, Tiny};
use std::alloc::Global;
use std::test::Fail;

// For the test of renewal: the table opened again, with its caller 1.
fn renew<S: Shape>(
    alloc: Global,
    table: Sessions<S>,
    caller: Caller<S>,
) -> Option<(Sessions<S>, Caller<S>)>
    requires own { caller.seat.row ≡ table.row }
    requires free { caller.seat.view.holds ≡ nothing_held }
    ensures own { IfSome result (λ r. r.1.seat.row ≡ r.0.row) }
    ensures free { IfSome result (λ r. r.1.seat.view.holds ≡ nothing_held) }
{
    match table.renew(alloc, caller) {
        Ok((table, caller)) => Some((table, caller)),
        Err(_) => None,
    }
}

// Renewal: a bucket whose writes are used up takes writes again, and its pairs are there.
#[test]
fn renewed_worn_table(rt: HostRuntime) -> Result<(), Fail> {
    let Ok((table, mut caller)) = create::<Tiny<8, 3>>(rt.alloc()) else {
        return table_refused();
    };
    const WORN: [Row; 5] = [
        (Add(7), [0, 0], Changed(None), (0, 1)),
        (Add(8), [0, 0], Changed(Some(7)), (0, 2)),
        (Touch(9), [0, 0], Changed(Some(8)), (0, 3)),
        (Add(5), [1, 0], Changed(None), (1, 1)),
        (Add(10), [0, 0], Worn(Some(9)), (0, 3)),
    ];
    assert!(rt; first_wrong(&table, &mut caller, &WORN) == None);
    let Some((table, mut caller)) = renew(rt.alloc(), table, caller) else {
        return table_refused();
    };
    assert!(rt; stamp(&caller) == None);
    const RENEWED: [Row; 4] = [
        (Search, [0, 0], Kept(Some(9)), (0, 0)),
        (Add(10), [0, 0], Changed(Some(9)), (0, 1)),
        (Add(1), [2, 0], Changed(None), (0, 2)),
        (Search, [1, 0], Kept(Some(5)), (1, 0)),
    ];
    assert!(rt; first_wrong(&table, &mut caller, &RENEWED) == None);
    let Some((table, mut caller)) = renew(rt.alloc(), table, caller) else {
        return table_refused();
    };
    assert!(rt; stamp(&caller) == None);
    const AGAIN: [Row; 1] = [(Search, [0, 0], Kept(Some(10)), (0, 0))];
    assert!(rt; first_wrong(&table, &mut caller, &AGAIN) == None);
    Ok(())
}
