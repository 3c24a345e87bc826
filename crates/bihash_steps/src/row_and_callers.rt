//! A row of atomic words under the word rule, and its callers.
ghost use Rattle.std.specs.Prelude.{◌≡◌, ◌≤◌, [], length};
ghost use Rattle.atomic_table.specs.Seated.{TableId};
ghost use Rattle.bihash_words.specs.Sizes.{sizes_of, IsSound};
ghost use Rattle.bihash_steps.specs.Seats.{CallerState, caller_state, IsRow, CanAct, stamp_of};
ghost use Rattle.bihash_rule.specs.Views.{opening_view, openings_told};
ghost use Rattle.bihash_rule.specs.WordRule.{WordRule};

use crate::row_beginning::Began;
use crate::scratch::Scratch;
use atomic_table::{Seat, Table, TableRule};
use bihash_rule::View;
use bihash_words::Shape;
use std::alloc::Global;
use std::marker::{Model, PhantomData};

/// The word rule, at the sizes of a shape. Caller 1 knows with what the row began.
pub struct RowRule<S> {
    shape: PhantomData<S>,
}

impl<S: Shape> TableRule<(), View, Began> for RowRule<S> {
    ghost holds = { λ _. WordRule (sizes_of S.Shape) };

    ghost first = { λ began. opening_view (sizes_of S.Shape) (openings_told (λ m. m.view) began) };
}

/// The words of one table. Contracts see which table it is.
#[derive(Drop)]
pub struct Row<S: Shape> {
    pub(crate) table: Table<(), View, Began, RowRule<S>, Global>,
}

impl<S: Shape> Model for Row<S> {
    ghost Value = { TableId };

    ghost view = { λ r. r.table.shared.table_id };

    ghost invariant = { λ r. IsRow (sizes_of S.Shape) r.table.shared.table_id };
}

impl<S: Shape> Row<S> {
    /// The sizes of a row are sound.
    pub fn is_sound(&self)
        ensures { IsSound (sizes_of S.Shape) }
    {
        let _ = &self.table;
    }
}

/// The seat of a caller at one table. Contracts see its row and what the caller knows.
#[derive(Drop)]
pub struct CallerSeat<S: Shape> {
    pub(crate) seat: Seat<(), View>,
    // How many numbers the caller has.
    pub(crate) numbers: u64,
    // The bucket and the stamp of its last answered call.
    pub(crate) stamp: Option<(u64, u64)>,
    pub(crate) shape: PhantomData<S>,
}

impl<S: Shape> Model for CallerSeat<S> {
    ghost Value = { CallerState };

    ghost view = { λ c. caller_state c.seat.table_id c.seat.id c.seat.me.0 };

    ghost invariant = { λ c. (c.seat.me.1 ≡ []) × CanAct c.seat.me.0 c.numbers
        × (c.stamp ≡ stamp_of c.seat.me.0.records) };
}

impl<S: Shape> CallerSeat<S> {
    /// The bucket and the stamp of the last answered call on the row under the caller's acting number, None before
    /// the first.
    pub fn stamp(&self) -> Option<(u64, u64)>
        ensures { result ≡ stamp_of self.now.view.records }
    {
        self.stamp
    }

    /// How many numbers of the row the caller has: its own, and those of the callers that were joined into it.
    pub fn numbers(&self) -> u64
        ensures count { result ≡ length self.now.view.records }
        ensures some { 1 ≤ result }
    {
        self.numbers
    }
}

/// A caller of one table: its seat, and the lists that it works with while it splits a block.
#[derive(Drop)]
pub struct Caller<S: Shape> {
    pub seat: CallerSeat<S>,
    pub scratch: Scratch<S>,
}
