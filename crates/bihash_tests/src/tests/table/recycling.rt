//! A full bucket in which pairs are expired.
ghost use Rattle.std.specs.Prelude.{◌≡◌, ◌<◌, ◌==◌, ◌||◌, false};
ghost use Rattle.std.specs.Thread.{IsSync};
ghost use Rattle.bihash_rule.specs.Views.{nothing_held};

use super::Call::Search;
use super::{
    BelowHundred, Eight, Row, add_keys_to_table, block, first_wrong, has, table_refused,
    two_callers,
};
use bihash_table::{Caller, Contended, KeyWithHash, Sessions, create, stamp};
use bihash_words::Reply::{Changed, Full, Kept};
use bihash_words::{Add, Expiry, Reply};
use std::sync::Wait;
use std::test::Fail;
use std::thread::{Threads, join};

// Values 2 and 4 are expired.
struct TwoAndFour;

impl Expiry for TwoAndFour {
    ghost is_expired = { λ _ value. (value == 2) || (value == 4) };

    // For tests of recycling: two of the values that fill the bucket are expired.
    fn expired(&self, value: u64) -> bool {
        value == 2 || value == 4
    }
}

// No value is expired.
struct Nothing;

impl Expiry for Nothing {
    ghost is_expired = { λ _ _. false };

    // For tests of recycling: no value is expired.
    fn expired(&self, _value: u64) -> bool {
        false
    }
}

// For tests of recycling: enters 99 under the key of this number, in the place of an expired pair where there is no
// other.
fn enter<E: Expiry>(
    table: &Sessions<Eight>,
    caller: &mut Caller<Eight>,
    key: u64,
    expiry: &E,
) -> Result<Reply, Contended>
    requires own { caller.old.seat.row ≡ table.now.row }
    requires free { caller.old.seat.view.holds ≡ nothing_held }
    ensures own { caller.new.seat.row ≡ table.now.row }
    ensures free { caller.new.seat.view.holds ≡ nothing_held }
{
    let key = [key, 0];
    let known = KeyWithHash::of(&key);
    table.try_add_or_recycle(caller, &known, &Add { value: 99 }, expiry)
}

// The keys that fill bucket 0.
const KEYS: [u32; 16] = [0, 2, 4, 6, 8, 10, 12, 14, 16, 18, 20, 22, 24, 26, 28, 30];

// Recycling: the expired pair with the least key goes for a new one, and a full bucket in which none is expired
// refuses.
#[test]
fn recycled_pair(rt: HostRuntime) -> Result<(), Fail> {
    let Ok((table, mut caller)) = create::<Eight>(rt.alloc()) else {
        return table_refused();
    };
    let caller = &mut caller;
    assert!(rt; add_keys_to_table(&table, caller, &KEYS));
    assert!(rt; enter(&table, caller, 32, &TwoAndFour) == Ok(Changed(None)));
    const FOUND: [Row; 2] = [
        (Search, [2, 0], Kept(None), (0, 17)),
        (Search, [32, 0], Kept(Some(99)), (0, 17)),
    ];
    assert!(rt; first_wrong(&table, caller, &FOUND) == None);
    const OTHERS: [u32; 15] = [0, 4, 6, 8, 10, 12, 14, 16, 18, 20, 22, 24, 26, 28, 30];
    assert!(rt; has(&table, caller, &OTHERS));
    assert!(rt; enter(&table, caller, 34, &Nothing) == Ok(Full));
    assert!(rt; stamp(caller) == Some((0, 17)));
    assert!(rt; block(&table, caller, 0) == (4, 2, true));
    Ok(())
}

// Recycling by two threads: each enters six keys in a bucket that is full of expired pairs. Whatever their order, the
// twelve least of these go, and nothing else does.
#[test]
fn two_recyclers(rt: HostRuntime) -> Result<(), Fail> {
    let Some((table, mut first, second)) = two_callers::<Eight>(rt.alloc()) else {
        return table_refused();
    };
    assert!(rt; add_keys_to_table(&table, &mut first, &KEYS));
    let (mut both, all_new) = recycle_both(&rt, &table, first, second);
    assert!(rt; all_new);
    const LEFT: [u32; 16] = [
        24, 26, 28, 30, 100, 102, 104, 106, 108, 110, 200, 202, 204, 206, 208, 210,
    ];
    assert!(rt; has(&table, &mut both, &LEFT));
    let pairs = table.close(rt.alloc(), both).ok();
    assert!(rt; pairs.map(|p| p.len()) == Some(16));
    Ok(())
}

// For the test of recycling by two threads: both callers, joined after their calls, and whether each key found room.
fn recycle_both<R: Threads + Wait + Sync>(
    rt: &R,
    table: &Sessions<Eight>,
    first: Caller<Eight>,
    second: Caller<Eight>,
) -> (Caller<Eight>, bool)
    requires own { (first.seat.row ≡ table.now.row) × (second.seat.row ≡ table.now.row) }
    requires free { (first.seat.view.holds ≡ nothing_held) × (second.seat.view.holds ≡ nothing_held) }
    ensures own { result.0.seat.row ≡ table.now.row }
    ensures free { result.0.seat.view.holds ≡ nothing_held }
{
    let (one, two) = join(
        rt,
        || -> (Caller<Eight>, bool)
            requires { IsSync R.row × (first.seat.row ≡ table.now.row) × (first.seat.view.holds ≡ nothing_held) }
            ensures { (result.0.seat.row ≡ table.entry.now.row) × (result.0.seat.view.holds ≡ nothing_held) }
        { recycle_six(table, rt, first, 100) },
        || -> (Caller<Eight>, bool)
            requires { IsSync R.row × (second.seat.row ≡ table.now.row) × (second.seat.view.holds ≡ nothing_held) }
            ensures { (result.0.seat.row ≡ table.entry.now.row) × (result.0.seat.view.holds ≡ nothing_held) }
        { recycle_six(table, rt, second, 200) },
    );
    (table.join(one.0, two.0), one.1 && two.1)
}

// For the test of recycling by two threads: the caller, and whether each of the six even keys from this one on found
// room. A key is its own value.
fn recycle_six<R: Wait>(
    table: &Sessions<Eight>,
    rt: &R,
    mut caller: Caller<Eight>,
    from: u32,
) -> (Caller<Eight>, bool)
    requires own { caller.seat.row ≡ table.now.row }
    requires free { caller.seat.view.holds ≡ nothing_held }
    requires few { from < 1000 }
    ensures own { result.0.seat.row ≡ table.now.row }
    ensures free { result.0.seat.view.holds ≡ nothing_held }
{
    let mut all_new = true;
    for i in 0..6u32 {
        let value = u64::from(from + 2 * i);
        let reply = table.add_or_recycle(
            rt,
            &mut caller,
            &KeyWithHash::of(&[value, 0]),
            &Add { value },
            &BelowHundred,
        );
        all_new &= reply == Reply::Changed(None);
    }
    (caller, all_new)
}
