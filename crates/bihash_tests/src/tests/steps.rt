//! New rows, and a caller of a small table that splits.
ghost use Rattle.std.specs.Prelude.{◌≡◌, IfSome};
ghost use Rattle.bihash_rule.specs.Views.{nothing_held};

use bihash_steps::{Caller, Row, open_row};
use bihash_words::{ShapeV4, ShapeV6, Tiny};
use std::alloc::Global;
use std::test::Fail;

// Four pages, and eight writes to a bucket. A table of this shape may have 64 callers.
type Small = Tiny<4, 8>;

// What tests of steps answer where a row or a split was refused.
fn steps_refused() -> Result<(), Fail> {
    Err("a row or a caller was refused")?
}

// For the test of a split: the caller of a row, and a new one.
fn split(
    alloc: Global,
    row: &Row<Small>,
    caller: Caller<Small>,
) -> Option<(Caller<Small>, Caller<Small>)>
    requires { (caller.seat.row ≡ row.now) × (caller.seat.view.holds ≡ nothing_held) }
    ensures old { IfSome result (λ r. (r.0.seat.row ≡ row.now) × (r.0.seat.view.holds ≡ nothing_held)) }
    ensures new { IfSome result (λ r. (r.1.seat.row ≡ row.now) × (r.1.seat.view.holds ≡ nothing_held)) }
{
    match row.split(alloc, caller) {
        Ok(both) => Some(both),
        Err(_) => None,
    }
}

// Steps on new rows: one caller is counted.
#[test]
fn rows_of_both_flow_shapes_open(rt: HostRuntime) -> Result<(), Fail> {
    let Ok((four, mut first)) = open_row::<ShapeV4>(rt.alloc()) else {
        return steps_refused();
    };
    assert!(rt; four.load_count(&mut first.seat) == 1);
    let Ok((six, mut first)) = open_row::<ShapeV6>(rt.alloc()) else {
        return steps_refused();
    };
    assert!(rt; six.load_count(&mut first.seat) == 1);
    Ok(())
}

// For the test of a split: how many callers of a row were made, as this one sees it, and how many numbers it has.
fn counts(row: &Row<Small>, caller: &mut Caller<Small>) -> (u64, u64)
    requires { (caller.old.seat.row ≡ row.now) × (caller.old.seat.view.holds ≡ nothing_held) }
    ensures { (caller.new.seat.row ≡ row.now) × (caller.new.seat.view.holds ≡ nothing_held) }
{
    let made = row.load_count(&mut caller.seat);
    (made, caller.seat.numbers())
}

// Steps on callers of a row: after a split both count two, and each has one number.
#[test]
fn split_steps_make_a_caller(rt: HostRuntime) -> Result<(), Fail> {
    let Ok((row, mut first)) = open_row::<Small>(rt.alloc()) else {
        return steps_refused();
    };
    assert!(rt; counts(&row, &mut first) == (1, 1));
    let Some((mut first, mut second)) = split(rt.alloc(), &row, first) else {
        return steps_refused();
    };
    assert!(rt; counts(&row, &mut second) == (2, 1));
    assert!(rt; counts(&row, &mut first) == (2, 1));
    Ok(())
}
