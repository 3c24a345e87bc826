//! The session tables of both families, and their callers.
ghost use Rattle.std.specs.Prelude.{◌≡◌, true, false, IfOk};
ghost use Rattle.bihash_words.specs.Sizes.{IsSound, sizes_of};
ghost use Rattle.flow_filter.specs.OneThread.{layout_of};
ghost use Rattle.flow_workers.specs.Callers.{AreIdle, first_views, views_of};

use crate::run_fault::RunFault;
use bihash_table::{Caller, Sessions, create, create_cutting};
use bihash_words::Shape;
use std::alloc::Global;

/// A session table for each family of addresses.
#[derive(Drop)]
pub struct Tables<A: Shape, B: Shape> {
    /// The table of IPv4 flows, whose keys are two words.
    pub four: Sessions<A>,
    /// The table of IPv6 flows, whose keys are five words.
    pub six: Sessions<B>,
}

/// A caller of each family's table.
#[derive(Drop)]
pub struct Callers<A: Shape, B: Shape> {
    pub four: Caller<A>,
    pub six: Caller<B>,
}

/// New tables, and callers of both that are lone and have made no call. `Memory`: memory was refused.
pub fn create_tables<A: Shape, B: Shape>(
    alloc: Global,
) -> Result<(Tables<A, B>, Callers<A, B>), RunFault>
    requires four { IsSound (sizes_of A.Shape) }
    requires six { IsSound (sizes_of B.Shape) }
    ensures idle { IfOk result (λ r. AreIdle ⟦<A as Shape>⟧ ⟦<B as Shape>⟧ r.0 r.1) }
    ensures first { IfOk result (λ r. views_of ⟦<A as Shape>⟧ ⟦<B as Shape>⟧ r.1
        ≡ first_views (layout_of ⟦<A as Shape>⟧ ⟦<B as Shape>⟧)) }
    ensures whole_blocks { IfOk result (λ r. (r.0.four.cuts_blocks ≡ false) × (r.0.six.cuts_blocks ≡ false)) }
{
    let (four, first_four) = create(alloc)?;
    let (six, first_six) = create(alloc)?;
    Ok((
        Tables { four, six },
        Callers {
            four: first_four,
            six: first_six,
        },
    ))
}

/// New tables and their callers, as by `create_tables`, but where pages are wanted for a block, a larger returned one is cut.
pub fn create_cutting_tables<A: Shape, B: Shape>(
    alloc: Global,
) -> Result<(Tables<A, B>, Callers<A, B>), RunFault>
    requires four { IsSound (sizes_of A.Shape) }
    requires six { IsSound (sizes_of B.Shape) }
    ensures idle { IfOk result (λ r. AreIdle ⟦<A as Shape>⟧ ⟦<B as Shape>⟧ r.0 r.1) }
    ensures first { IfOk result (λ r. views_of ⟦<A as Shape>⟧ ⟦<B as Shape>⟧ r.1
        ≡ first_views (layout_of ⟦<A as Shape>⟧ ⟦<B as Shape>⟧)) }
    ensures cuts { IfOk result (λ r. (r.0.four.cuts_blocks ≡ true) × (r.0.six.cuts_blocks ≡ true)) }
{
    let (four, first_four) = create_cutting(alloc)?;
    let (six, first_six) = create_cutting(alloc)?;
    Ok((
        Tables { four, six },
        Callers {
            four: first_four,
            six: first_six,
        },
    ))
}
