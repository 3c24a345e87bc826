//! Calls that wait for their turn. What they answer is worked out by hand.
ghost use Rattle.std.specs.Prelude.{◌≡◌};
ghost use Rattle.bihash_rule.specs.Views.{nothing_held};

use super::{Call, Eight, Row, table_refused};
use bihash_table::{Caller, Sessions, create, stamp};
use bihash_words::Reply;
use bihash_words::Reply::{Changed, Kept};
use std::sync::Wait;
use std::test::Fail;

// For the test of waiting: what a call answers that waits for its turn.
fn waiting_by_name<R: Wait>(
    rt: &R,
    table: &Sessions<Eight>,
    caller: &mut Caller<Eight>,
    call: Call,
    key: &[u64; 2],
) -> Reply
    requires own { caller.old.seat.row ≡ table.now.row }
    requires free { caller.old.seat.view.holds ≡ nothing_held }
    ensures own { caller.new.seat.row ≡ table.now.row }
    ensures free { caller.new.seat.view.holds ≡ nothing_held }
{
    match call {
        Call::Add(value) => table.add(rt, caller, key, u64::from(value)),
        Call::AddIfAbsent(value) => table.add_if_absent(rt, caller, key, u64::from(value)),
        Call::Touch(value) => table.touch(rt, caller, key, u64::from(value)),
        Call::Remove => table.remove(rt, caller, key),
        Call::Search => Reply::Kept(table.search(rt, caller, key)),
    }
}

// For the test of waiting: the number of the first row whose call is answered otherwise when it waits, if one is.
fn first_wrong_waiting<R: Wait>(
    rt: &R,
    table: &Sessions<Eight>,
    caller: &mut Caller<Eight>,
    rows: &[Row],
) -> Option<usize>
    requires own { caller.old.seat.row ≡ table.now.row }
    requires free { caller.old.seat.view.holds ≡ nothing_held }
    ensures own { caller.new.seat.row ≡ table.now.row }
    ensures free { caller.new.seat.view.holds ≡ nothing_held }
{
    'rows: for (i, (call, key, reply, at)) in rows.iter().enumerate() {
        let answered = waiting_by_name(rt, table, caller, *call, key);
        if answered != *reply || stamp(caller) != Some(*at) {
            return Some(i);
        }
    }
    None
}

// Waiting: each of the four fixed updates, and a search, called by its name.
#[test]
fn waiting_calls_by_name(rt: HostRuntime) -> Result<(), Fail> {
    let Ok((table, mut caller)) = create::<Eight>(rt.alloc()) else {
        return table_refused();
    };
    const ROWS: [Row; 11] = [
        (Call::Touch(6), [0, 0], Kept(None), (0, 0)),
        (Call::AddIfAbsent(7), [0, 0], Changed(None), (0, 1)),
        (Call::AddIfAbsent(8), [0, 0], Kept(Some(7)), (0, 1)),
        (Call::Touch(9), [0, 0], Changed(Some(7)), (0, 2)),
        (Call::Touch(9), [2, 0], Kept(None), (0, 2)),
        (Call::Search, [0, 0], Kept(Some(9)), (0, 2)),
        (Call::Search, [2, 0], Kept(None), (0, 2)),
        (Call::Remove, [2, 0], Kept(None), (0, 2)),
        (Call::Remove, [0, 0], Changed(Some(9)), (0, 3)),
        (Call::Search, [0, 0], Kept(None), (0, 3)),
        (Call::Add(4), [0, 0], Changed(None), (0, 4)),
    ];
    assert!(rt; first_wrong_waiting(&rt, &table, &mut caller, &ROWS) == None);
    Ok(())
}
