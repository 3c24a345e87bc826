//! A caller together with its table.
ghost use Rattle.std.specs.Prelude.{◌≡◌};
ghost use Rattle.bihash_steps.specs.Seats.{CallerState};
ghost use Rattle.bihash_rule.specs.Views.{nothing_held};
ghost use Rattle.bihash_c.specs.TableShares.{row_of};

use crate::table_share::TableShare;
use bihash_table::Caller;
use bihash_words::Shape;
use std::marker::Model;

/// A caller with the table that it belongs to. It holds no lock. Contracts see the caller.
#[derive(Drop)]
pub struct CallerWithTable<S: Shape> {
    pub(crate) share: TableShare<S>,
    pub(crate) caller: Caller<S>,
}

impl<S: Shape> Model for CallerWithTable<S> {
    ghost Value = { CallerState };

    ghost view = { λ m. m.caller.seat };

    ghost invariant = { λ m. (m.caller.seat.row ≡ row_of m.share) × (m.caller.seat.view.holds ≡ nothing_held) };
}
