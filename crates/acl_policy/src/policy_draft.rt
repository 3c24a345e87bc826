//! A policy of which some lines were read.
use crate::policy::Section;

/// What was read of a policy so far.
#[derive(Drop)]
pub struct Draft {
    /// The sections before the current one.
    pub done: Vec<Section>,
    /// The section to which further lines belong.
    pub current: Section,
}
