//! Why a row could not be made.
ghost use Rattle.std.specs.Prelude.{◌≡◌};
ghost use Rattle.bihash_steps.specs.declared.create_fault.CreateFault.TheVariants.{Memory};

use std::alloc::AllocError;

/// Why a row could not be made.
#[derive(Clone, Copy, Debug, PartialEq, Eq)]
pub enum CreateFault {
    /// Memory was refused.
    Memory,
}

impl From<AllocError> for CreateFault {
    ghost from_gives = { λ _ fault. fault ≡ Memory };

    fn from(_error: AllocError) -> Self {
        CreateFault::Memory
    }
}
