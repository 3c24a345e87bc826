//! Why a table could not be closed.
use thiserror::Error;

/// Why a table could not be closed. Nothing of it changed.
#[derive(Clone, Copy, Debug, PartialEq, Eq, Error)]
pub enum CloseFault {
    /// Some caller was not joined into the one that closes.
    #[error("another caller is left")]
    Strangers,
    /// Memory was refused.
    #[error("memory was refused")]
    Memory,
}
