//! The shared table: worked rows with one try a call, searches that take no lock, threads, calls that wait, and
//! tables that end.
ghost use Rattle.std.specs.Prelude.{◌≡◌, ◌<◌, IfSome, nat_lt};
ghost use Rattle.bihash_words.specs.Sizes.{sizes_of, IsSound};
ghost use Rattle.bihash_rule.specs.Views.{nothing_held};

use bihash_table::{Caller, Contended, Sessions, create, stamp};
use bihash_words::{Add, AddIfAbsent, Delete, Expiry, Reply, Shape, Tiny, Touch};
use std::alloc::Global;
use std::test::Fail;

mod ageing;
mod block_growth;
mod closing;
mod cut_blocks;
mod exhaustion;
mod recycling;
mod renewal;
mod several_callers;
mod threads;
mod waiting;

// Eight pages, and 1000 writes to a bucket.
type Eight = Tiny<8, 1000>;

// Values below 100 are expired.
struct BelowHundred;

impl Expiry for BelowHundred {
    ghost is_expired = { λ _ value. nat_lt value 100 };

    // Shared by tests of the table: the small values that keys are added with are expired.
    fn expired(&self, value: u64) -> bool {
        value < 100
    }
}

// A call, with the value that it sets.
#[derive(Clone, Copy)]
enum Call {
    Add(u32),
    AddIfAbsent(u32),
    Touch(u32),
    Remove,
    Search,
}

// A call on a key, its answer, and the bucket and stamp of its caller after it. A search answers `Kept`.
type Row = (Call, [u64; 2], Reply, (u64, u64));

// Shared by tests of the table: what they answer where a table, a split or a renewal was refused.
fn table_refused() -> Result<(), Fail> {
    Err("a table or a caller was refused")?
}

// Shared by tests of the table: a new table and two callers.
fn two_callers<S: Shape>(alloc: Global) -> Option<(Sessions<S>, Caller<S>, Caller<S>)>
    requires sound { IsSound (sizes_of S.Shape) }
    ensures own { IfSome result (λ r. (r.1.seat.row ≡ r.0.row) × (r.2.seat.row ≡ r.0.row)) }
    ensures free { IfSome result (λ r. (r.1.seat.view.holds ≡ nothing_held) × (r.2.seat.view.holds ≡ nothing_held)) }
{
    let Ok((table, first)) = create::<S>(alloc) else {
        return None;
    };
    match table.split(alloc, first) {
        Ok((first, second)) => Some((table, first, second)),
        Err(_) => None,
    }
}

// Shared by tests of the table: what one try of a call answers.
fn table_answer<const P: u64, const L: u64>(
    table: &Sessions<Tiny<P, L>>,
    caller: &mut Caller<Tiny<P, L>>,
    call: Call,
    key: &[u64; 2],
) -> Result<Reply, Contended>
    requires own { caller.old.seat.row ≡ table.now.row }
    requires free { caller.old.seat.view.holds ≡ nothing_held }
    ensures own { caller.new.seat.row ≡ table.now.row }
    ensures free { caller.new.seat.view.holds ≡ nothing_held }
{
    match call {
        Call::Add(value) => {
            let value = u64::from(value);
            table.try_update(caller, key, &Add { value })
        }
        Call::AddIfAbsent(value) => {
            let value = u64::from(value);
            table.try_update(caller, key, &AddIfAbsent { value })
        }
        Call::Touch(value) => {
            let value = u64::from(value);
            table.try_update(caller, key, &Touch { value })
        }
        Call::Remove => table.try_update(caller, key, &Delete),
        Call::Search => Ok(Reply::Kept(table.try_search(caller, key)?)),
    }
}

// Shared by tests of the table: the number of the first row whose call is answered otherwise at its one try, if one is.
fn first_wrong<const P: u64, const L: u64>(
    table: &Sessions<Tiny<P, L>>,
    caller: &mut Caller<Tiny<P, L>>,
    rows: &[Row],
) -> Option<usize>
    requires own { caller.old.seat.row ≡ table.now.row }
    requires free { caller.old.seat.view.holds ≡ nothing_held }
    ensures own { caller.new.seat.row ≡ table.now.row }
    ensures free { caller.new.seat.view.holds ≡ nothing_held }
{
    'rows: for (i, (call, key, reply, at)) in rows.iter().enumerate() {
        let answered = table_answer(table, caller, *call, key);
        if answered != Ok(*reply) || stamp(caller) != Some(*at) {
            return Some(i);
        }
    }
    None
}

// Shared by tests of the table: adds keys of these numbers, each with its number as value. Each is a new pair.
fn add_keys_to_table<const P: u64, const L: u64>(
    table: &Sessions<Tiny<P, L>>,
    caller: &mut Caller<Tiny<P, L>>,
    keys: &[u32],
) -> bool
    requires own { caller.old.seat.row ≡ table.now.row }
    requires free { caller.old.seat.view.holds ≡ nothing_held }
    ensures own { caller.new.seat.row ≡ table.now.row }
    ensures free { caller.new.seat.view.holds ≡ nothing_held }
{
    let mut all_new = true;
    for key in keys {
        let reply = table_answer(table, caller, Call::Add(*key), &[u64::from(*key), 0]);
        all_new &= reply == Ok(Reply::Changed(None));
    }
    all_new
}

// Shared by tests of the table: whether each key of these numbers is found with its number as value.
fn has<const P: u64, const L: u64>(
    table: &Sessions<Tiny<P, L>>,
    caller: &mut Caller<Tiny<P, L>>,
    keys: &[u32],
) -> bool
    requires own { caller.old.seat.row ≡ table.now.row }
    requires free { caller.old.seat.view.holds ≡ nothing_held }
    ensures own { caller.new.seat.row ≡ table.now.row }
    ensures free { caller.new.seat.view.holds ≡ nothing_held }
{
    let mut all_found = true;
    for key in keys {
        let key = u64::from(*key);
        all_found &= table.try_search(caller, &[key, 0]) == Ok(Some(key));
    }
    all_found
}

// Shared by tests of the table: the first page of a bucket's block, its log2, and whether it is linear.
fn block<const P: u64, const L: u64>(
    table: &Sessions<Tiny<P, L>>,
    caller: &mut Caller<Tiny<P, L>>,
    bucket: usize,
) -> (u64, u64, bool)
    requires there { bucket < 2 }
    requires own { caller.old.seat.row ≡ table.now.row }
    requires free { caller.old.seat.view.holds ≡ nothing_held }
    ensures own { caller.new.seat.row ≡ table.now.row }
    ensures free { caller.new.seat.view.holds ≡ nothing_held }
{
    let word = table.row.load_bucket(&mut caller.seat, bucket);
    (word.page(), word.log2(), word.linear())
}

// Shared by tests of the table: whether it ends with these pairs.
fn ends_with<const P: u64, const L: u64>(
    alloc: Global,
    table: Sessions<Tiny<P, L>>,
    caller: Caller<Tiny<P, L>>,
    pairs: &[([u64; 2], u64)],
) -> bool
    requires own { caller.seat.row ≡ table.row }
    requires free { caller.seat.view.holds ≡ nothing_held }
{
    match table.close(alloc, caller) {
        Ok(found) => found.as_slice() == pairs,
        Err(_) => false,
    }
}
