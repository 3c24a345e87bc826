//! Why a run of workers has no verdicts.
ghost use Rattle.std.specs.Prelude.{◌≡◌};
ghost use Rattle.flow_workers.specs.declared.run_fault.RunFault.TheVariants.{Memory};

use bihash_table::CreateFault;
use std::alloc::AllocError;
use thiserror::Error;

/// Why a run of workers has no verdicts.
#[derive(Clone, Copy, Debug, PartialEq, Eq, Error)]
pub enum RunFault {
    /// Memory was refused.
    #[error("no memory")]
    Memory,
}

impl From<AllocError> for RunFault {
    ghost from_gives = { λ _ fault. fault ≡ Memory };

    fn from(_e: AllocError) -> RunFault {
        RunFault::Memory
    }
}

impl From<CreateFault> for RunFault {
    ghost from_gives = { λ _ fault. fault ≡ Memory };

    fn from(_e: CreateFault) -> RunFault {
        RunFault::Memory
    }
}
