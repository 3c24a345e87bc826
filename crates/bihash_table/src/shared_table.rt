//! The shared table.
ghost use Rattle.std.specs.Prelude.{◌≡◌, true, false, IfOk};
ghost use Rattle.bihash_words.specs.Sizes.{sizes_of, IsSound};
ghost use Rattle.bihash_rule.specs.Callers.{IsLawfulCaller};
ghost use Rattle.bihash_rule.specs.Views.{first_view};

use bihash_steps::{Caller, CreateFault, Row, open_row};
use bihash_words::Shape;
use std::alloc::Global;

/// A table of sessions that many callers share.
#[derive(Drop)]
pub struct Sessions<S: Shape> {
    /// The words of the table.
    pub row: Row<S>,
    /// Whether a larger returned block is cut where no other is left for a block that is wanted.
    pub cuts_blocks: bool,
}

/// A new shared table and its caller 1, which is lone and has made no call. Its returned blocks serve blocks of their size
/// alone. `Memory`: memory was refused.
pub fn create<S: Shape>(alloc: Global) -> Result<(Sessions<S>, Caller<S>), CreateFault>
    requires sound { IsSound (sizes_of S.Shape) }
    ensures first { IfOk result (λ r. (r.1.seat.row ≡ r.0.row) × (r.1.seat.view ≡ first_view (sizes_of S.Shape))) }
    ensures lawful { IfOk result (λ r. IsLawfulCaller (sizes_of S.Shape) r.1.seat.view) }
    ensures whole_blocks { IfOk result (λ r. r.0.cuts_blocks ≡ false) }
{
    let (row, caller) = open_row(alloc)?;
    let cuts_blocks = false;
    Ok((Sessions { row, cuts_blocks }, caller))
}

/// A new shared table and its caller 1, as by `create`, but where pages are wanted for a block, a larger returned one is
/// cut. `Memory`: memory was refused.
pub fn create_cutting<S: Shape>(alloc: Global) -> Result<(Sessions<S>, Caller<S>), CreateFault>
    requires sound { IsSound (sizes_of S.Shape) }
    ensures first { IfOk result (λ r. (r.1.seat.row ≡ r.0.row) × (r.1.seat.view ≡ first_view (sizes_of S.Shape))) }
    ensures lawful { IfOk result (λ r. IsLawfulCaller (sizes_of S.Shape) r.1.seat.view) }
    ensures cuts { IfOk result (λ r. r.0.cuts_blocks ≡ true) }
{
    let (row, caller) = open_row(alloc)?;
    let cuts_blocks = true;
    Ok((Sessions { row, cuts_blocks }, caller))
}
