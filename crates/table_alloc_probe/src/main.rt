//! Makes, splits, renews and closes a small table, and prints what each call answered. A call that was refused memory is
//! made once more, after a line on what is there by then: so who refuses memory from outside sees that nothing changed.
#![tactic(auto)]

ghost use Rattle.std.specs.Prelude.{◌≡◌, IfOk, IfErr, IfSome};
ghost use Rattle.bihash_rule.specs.Views.{nothing_held};

use bihash_table::{Caller, CloseFault, RenewFault, Sessions, SplitFault, create, stamp};
use bihash_words::{Add, Tiny};
use std::io;
use std::process::ExitCode;

// Eight pages, and 1000 writes to a bucket.
type Small = Tiny<8, 1000>;

// What is added: so many pairs that their list grows, and last the one that is looked for.
const ADDED: [(u64, u64); 5] = [(7, 1), (1, 2), (4, 3), (0, 4), (2, 5)];

fn main(rt: HostRuntime) -> ExitCode {
    match made_and_closed(&rt) {
        Ok(true) => ExitCode::from(0),
        Ok(false) | Err(_) => ExitCode::from(4),
    }
}

// Whether the probe's table was made, filled, and renewed and closed once its callers were joined: memory was refused
// to no call twice.
fn made_and_closed(rt: &HostRuntime) -> io::Result<bool> {
    let Some((table, caller)) = make_probe_table(rt)? else {
        return Ok(false);
    };
    let caller = fill_probe_table(rt, &table, caller)?;
    let Some((first, second)) = split_twice(rt, &table, caller)? else {
        return Ok(false);
    };
    let Err((table, first)) = close_probe_table(rt, table, first)? else {
        return Ok(false);
    };
    let both = show_caller(rt, &table, table.join(first, second))?;
    let Some((table, caller)) = open_again(rt, table, both)? else {
        return Ok(false);
    };
    match close_probe_table(rt, table, caller)? {
        Ok(()) => Ok(true),
        Err((table, caller)) => Ok(close_probe_table(rt, table, caller)?.is_ok()),
    }
}

// The probe's new table and its caller, at the second attempt where memory was refused to the first.
fn make_probe_table(rt: &HostRuntime) -> io::Result<Option<(Sessions<Small>, Caller<Small>)>>
    ensures own { IfOk result (λ r. IfSome r (λ t. t.1.seat.row ≡ t.0.row)) }
    ensures free { IfOk result (λ r. IfSome r (λ t. t.1.seat.view.holds ≡ nothing_held)) }
{
    for _ in 0..2 {
        if let Ok(made) = create::<Small>(rt.alloc()) {
            println!(rt; "create: done")?;
            return Ok(Some(made));
        }
        println!(rt; "create: no memory")?;
    }
    Ok(None)
}

// The probe's caller, which added the pairs that are to be added, after a line on each reply.
fn fill_probe_table(
    rt: &HostRuntime,
    table: &Sessions<Small>,
    mut caller: Caller<Small>,
) -> io::Result<Caller<Small>>
    requires own { caller.seat.row ≡ table.now.row }
    requires free { caller.seat.view.holds ≡ nothing_held }
    ensures own { IfOk result (λ c. c.seat.row ≡ table.now.row) }
    ensures free { IfOk result (λ c. c.seat.view.holds ≡ nothing_held) }
{
    for (key, value) in ADDED {
        let reply = table.try_update(&mut caller, &[key, 0], &Add { value });
        println!(rt; "add {key}: {reply:?}")?;
    }
    show_caller(rt, table, caller)
}

// Two callers of the probe's table in place of its one, at the second attempt where memory was refused to the first.
fn split_twice(
    rt: &HostRuntime,
    table: &Sessions<Small>,
    caller: Caller<Small>,
) -> io::Result<Option<(Caller<Small>, Caller<Small>)>>
    requires own { caller.seat.row ≡ table.now.row }
    requires free { caller.seat.view.holds ≡ nothing_held }
    ensures own { IfOk result (λ r. IfSome r (λ b. (b.0.seat.row ≡ table.now.row) × (b.1.seat.row ≡ table.now.row))) }
    ensures free { IfOk result (λ r. IfSome r (λ b. (b.0.seat.view.holds ≡ nothing_held) × (b.1.seat.view.holds ≡ nothing_held))) }
{
    match split_probe_caller(rt, table, caller)? {
        Ok(both) => Ok(Some(both)),
        Err(caller) => Ok(split_probe_caller(rt, table, caller)?.ok()),
    }
}

// The probe's caller, and a new one; or the caller, as it is where its split was refused. A line says which.
fn split_probe_caller(
    rt: &HostRuntime,
    table: &Sessions<Small>,
    caller: Caller<Small>,
) -> io::Result<Result<(Caller<Small>, Caller<Small>), Caller<Small>>>
    requires own { caller.seat.row ≡ table.now.row }
    requires free { caller.seat.view.holds ≡ nothing_held }
    ensures own { IfOk result (λ r. IfOk r (λ b. (b.0.seat.row ≡ table.now.row) × (b.1.seat.row ≡ table.now.row))
        × IfErr r (λ c. c.seat.row ≡ table.now.row)) }
    ensures free { IfOk result (λ r. IfOk r (λ b. (b.0.seat.view.holds ≡ nothing_held) × (b.1.seat.view.holds ≡ nothing_held))
        × IfErr r (λ c. c.seat.view.holds ≡ nothing_held)) }
{
    match table.split(rt.alloc(), caller) {
        Ok((first, second)) => {
            println!(rt; "split: done")?;
            Ok(Ok((show_caller(rt, table, first)?, second)))
        }
        Err((fault, caller)) => {
            let refused = fault == SplitFault::Memory;
            println!(rt; "split: {}", if refused { "no memory" } else { "refused" })?;
            Ok(Err(show_caller(rt, table, caller)?))
        }
    }
}

// The probe's renewed table and its caller, at the second attempt where memory was refused to the first.
fn open_again(
    rt: &HostRuntime,
    table: Sessions<Small>,
    caller: Caller<Small>,
) -> io::Result<Option<(Sessions<Small>, Caller<Small>)>>
    requires own { caller.seat.row ≡ table.row }
    requires free { caller.seat.view.holds ≡ nothing_held }
    ensures own { IfOk result (λ r. IfSome r (λ t. t.1.seat.row ≡ t.0.row)) }
    ensures free { IfOk result (λ r. IfSome r (λ t. t.1.seat.view.holds ≡ nothing_held)) }
{
    match renew_probe_table(rt, table, caller)? {
        Ok(renewed) => Ok(Some(renewed)),
        Err((table, caller)) => Ok(renew_probe_table(rt, table, caller)?.ok()),
    }
}

// The probe's renewed table and its caller, which added a value; or the table and its caller, as they are where that
// was refused.
fn renew_probe_table(
    rt: &HostRuntime,
    table: Sessions<Small>,
    caller: Caller<Small>,
) -> io::Result<Result<(Sessions<Small>, Caller<Small>), (Sessions<Small>, Caller<Small>)>>
    requires own { caller.seat.row ≡ table.row }
    requires free { caller.seat.view.holds ≡ nothing_held }
    ensures own { IfOk result (λ r. IfOk r (λ t. t.1.seat.row ≡ t.0.row) × IfErr r (λ t. t.1.seat.row ≡ t.0.row)) }
    ensures free { IfOk result (λ r. IfOk r (λ t. t.1.seat.view.holds ≡ nothing_held) × IfErr r (λ t. t.1.seat.view.holds ≡ nothing_held)) }
{
    match table.renew(rt.alloc(), caller) {
        Ok((table, mut caller)) => {
            println!(rt; "renew: done")?;
            let reply = table.try_update(&mut caller, &[2, 0], &Add { value: 6 });
            println!(rt; "add 2: {reply:?}")?;
            let caller = show_caller(rt, &table, caller)?;
            Ok(Ok((table, caller)))
        }
        Err((fault, table, caller)) => {
            let refused = fault == RenewFault::Memory;
            println!(rt;
                "renew: {}",
                if refused { "no memory" } else { "strangers" }
            )?;
            let caller = show_caller(rt, &table, caller)?;
            Ok(Err((table, caller)))
        }
    }
}

// Nothing, where the probe's table is closed and its pairs are printed; or the table and its caller, as they are where
// that was refused.
fn close_probe_table(
    rt: &HostRuntime,
    table: Sessions<Small>,
    caller: Caller<Small>,
) -> io::Result<Result<(), (Sessions<Small>, Caller<Small>)>>
    requires own { caller.seat.row ≡ table.row }
    requires free { caller.seat.view.holds ≡ nothing_held }
    ensures own { IfOk result (λ r. IfErr r (λ t. (t.0.row ≡ table.row) × (t.1.seat.row ≡ table.row))) }
    ensures free { IfOk result (λ r. IfErr r (λ t. t.1.seat.view.holds ≡ nothing_held)) }
{
    match table.close(rt.alloc(), caller) {
        Ok(pairs) => {
            println!(rt; "close: {pairs:?}")?;
            Ok(Ok(()))
        }
        Err((fault, table, caller)) => {
            let refused = fault == CloseFault::Memory;
            println!(rt;
                "close: {}",
                if refused { "no memory" } else { "strangers" }
            )?;
            let caller = show_caller(rt, &table, caller)?;
            Ok(Err((table, caller)))
        }
    }
}

// The probe's caller, after a line on its last stamp, its numbers, whether it is lone, and what it finds under the last
// added key.
fn show_caller(
    rt: &HostRuntime,
    table: &Sessions<Small>,
    mut caller: Caller<Small>,
) -> io::Result<Caller<Small>>
    requires own { caller.seat.row ≡ table.now.row }
    requires free { caller.seat.view.holds ≡ nothing_held }
    ensures own { IfOk result (λ c. c.seat.row ≡ table.now.row) }
    ensures free { IfOk result (λ c. c.seat.view.holds ≡ nothing_held) }
{
    let last = stamp(&caller);
    let numbers = caller.seat.numbers();
    let is_lone = table.is_lone(&mut caller);
    let found = table.try_search(&mut caller, &[2, 0]);
    println!(rt; "caller: {last:?}, {numbers}, {is_lone}, {found:?}")?;
    Ok(caller)
}
