//! Why a text is no file of expectations.
use std::alloc::{AllocError, AllocFailed};
use thiserror::Error;

/// What is wrong with a line.
#[derive(Clone, Copy, Debug, PartialEq, Eq, Error)]
pub enum ExpectationReason {
    #[error("it begins with the number of a packet as 7, with numbers as 9-12, or with packets, pass or drop")]
    NoNumbers,
    #[error("behind its numbers stand no words of a verdict, as pass, drop default or pass rule 3")]
    NoVerdict,
    #[error("behind its total stands no number alone")]
    NoCount,
}

/// Why a text is no file of expectations. Lines are counted from 1.
#[derive(Clone, Copy, Debug, PartialEq, Eq, Error)]
pub enum ExpectationFault {
    #[error("no memory")]
    Memory,
    #[error("expectations are not UTF-8")]
    NotUtf8,
    #[error("line {0} of the expectations is wrong: {1}")]
    BadLine(u64, ExpectationReason),
}

impl From<AllocError> for ExpectationFault {
    ghost use Rattle.compared_verdicts.specs.declared.expectation_fault.ExpectationFault.TheVariants.{Memory};
    ghost use Rattle.std.specs.Prelude.{◌≡◌};

    ghost from_gives = { λ _ fault. fault ≡ Memory };

    fn from(_failed: AllocError) -> ExpectationFault {
        ExpectationFault::Memory
    }
}

impl<T: Drop> From<AllocFailed<T>> for ExpectationFault {
    ghost use Rattle.compared_verdicts.specs.declared.expectation_fault.ExpectationFault.TheVariants.{Memory};
    ghost use Rattle.std.specs.Prelude.{◌≡◌};

    ghost from_gives = { λ _ fault. fault ≡ Memory };

    fn from(_failed: AllocFailed<T>) -> ExpectationFault {
        ExpectationFault::Memory
    }
}
