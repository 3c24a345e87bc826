//! The refusal of a try that another caller stood in the way of.
use thiserror::Error;

/// The call was given up, as it is where another caller stands in its way. It made no write and is in no record. A lone
/// caller is never told so.
#[derive(Clone, Copy, Debug, PartialEq, Eq, Error)]
#[error("another caller holds a lock or changed the bucket")]
pub struct Contended;
