//! Why a table could not be renewed.
use thiserror::Error;

/// Why a table could not be renewed. Nothing of it changed.
#[derive(Clone, Copy, Debug, PartialEq, Eq, Error)]
pub enum RenewFault {
    /// Some caller was not joined into the one that renews.
    #[error("another caller is left")]
    Strangers,
    /// Memory was refused.
    #[error("memory was refused")]
    Memory,
}
