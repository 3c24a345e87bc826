//! A judge's share of the session tables: its own, or one that other judges have too.
ghost use Rattle.std.specs.Prelude.{◌≡◌, IfOk, IfErr, true};
ghost use Rattle.flow_judge.specs.TablesShares.{is_shared, tables_of};

use bihash_words::Shape;
use flow_workers::Tables;
use std::alloc::Global;
use std::sync::Arc;

/// The session tables of a judge.
#[derive(Drop)]
pub enum TablesShare<A: Shape, B: Shape> {
    /// No other judge has them.
    Own(Tables<A, B>),
    /// Other judges may have them too.
    Shared(Arc<Tables<A, B>, Global>),
}

impl<A: Shape, B: Shape> TablesShare<A, B> {
    /// The tables that the judge has a share of.
    #[inline(always)]
    pub fn tables(&self) -> &Tables<A, B>
        ensures { result.now ≡ tables_of self.now }
    {
        match self {
            TablesShare::Own(tables) => tables,
            TablesShare::Shared(tables) => tables,
        }
    }

    /// Two shares of the tables. Where memory is refused, the one comes back.
    pub fn divide(
        self,
        alloc: Global,
    ) -> Result<(TablesShare<A, B>, TablesShare<A, B>), TablesShare<A, B>>
        ensures same { IfOk result (λ r. (tables_of r.0 ≡ tables_of self) × (tables_of r.1 ≡ tables_of self)) }
        ensures shared { IfOk result (λ r. (is_shared r.0 ≡ true) × (is_shared r.1 ≡ true)) }
        ensures back { IfErr result (λ r. tables_of r ≡ tables_of self) }
    {
        let shared = match self {
            TablesShare::Shared(tables) => tables,
            TablesShare::Own(tables) => match Arc::new(alloc, tables) {
                Ok(tables) => tables,
                Err(refused) => return Err(TablesShare::Own(refused.value)),
            },
        };
        match Arc::try_clone(&shared) {
            Ok(other) => Ok((TablesShare::Shared(shared), TablesShare::Shared(other))),
            Err(_) => Err(TablesShare::Shared(shared)),
        }
    }

    /// The tables, where no other judge has a share of them.
    pub fn into_own(self) -> Result<Tables<A, B>, TablesShare<A, B>>
        ensures own { IfOk result (λ r. r ≡ tables_of self) }
        ensures back { IfErr result (λ r. tables_of r ≡ tables_of self) }
        ensures shared { IfErr result (λ r. (is_shared self ≡ true) × (is_shared r ≡ true)) }
    {
        match self {
            TablesShare::Own(tables) => Ok(tables),
            TablesShare::Shared(tables) => match Arc::try_unwrap(tables) {
                Ok(tables) => Ok(tables),
                Err(tables) => Err(TablesShare::Shared(tables)),
            },
        }
    }
}
