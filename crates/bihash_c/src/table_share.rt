//! A caller's share of its table: its own, or one that other callers have too.
ghost use Rattle.std.specs.Prelude.{◌≡◌, IfOk, IfErr};
ghost use Rattle.bihash_c.specs.TableShares.{IsShared, row_of};

use bihash_table::Sessions;
use bihash_words::Shape;
use std::alloc::Global;
use std::sync::Arc;

/// The table of a caller.
#[derive(Drop)]
pub enum TableShare<S: Shape> {
    /// No other caller has it.
    Own(Sessions<S>),
    /// Other callers may have it too.
    Shared(Arc<Sessions<S>, Global>),
}

impl<S: Shape> TableShare<S> {
    /// The table that the caller has a share of.
    #[inline(always)]
    pub fn sessions(&self) -> &Sessions<S>
        ensures { result.now.row ≡ row_of self.now }
    {
        match self {
            TableShare::Own(sessions) => sessions,
            TableShare::Shared(sessions) => sessions,
        }
    }

    /// Two shares of the table. Where memory is refused, the one comes back.
    pub fn divide(self, alloc: Global) -> Result<(TableShare<S>, TableShare<S>), TableShare<S>>
        ensures same { IfOk result (λ r. (row_of r.0 ≡ row_of self) × (row_of r.1 ≡ row_of self)) }
        ensures back { IfErr result (λ r. row_of r ≡ row_of self) }
    {
        let shared = match self {
            TableShare::Shared(sessions) => sessions,
            TableShare::Own(sessions) => match Arc::new(alloc, sessions) {
                Ok(sessions) => sessions,
                Err(refused) => return Err(TableShare::Own(refused.value)),
            },
        };
        match Arc::try_clone(&shared) {
            Ok(other) => Ok((TableShare::Shared(shared), TableShare::Shared(other))),
            Err(_) => Err(TableShare::Shared(shared)),
        }
    }

    /// The table, where no other caller has a share of it. A share of its own never comes back.
    pub fn into_own(self) -> Result<Sessions<S>, TableShare<S>>
        ensures own { IfOk result (λ r. r.row ≡ row_of self) }
        ensures back { IfErr result (λ r. IsShared r × (r ≡ self)) }
    {
        match self {
            TableShare::Own(sessions) => Ok(sessions),
            TableShare::Shared(sessions) => match Arc::try_unwrap(sessions) {
                Ok(sessions) => Ok(sessions),
                Err(sessions) => Err(TableShare::Shared(sessions)),
            },
        }
    }
}
