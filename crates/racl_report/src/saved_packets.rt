//! Where packets of a capture are saved.

/// Where packets of a capture are saved: those that were dropped, and those that passed.
#[derive(Drop)]
pub struct Saves<S> {
    pub drops: Option<S>,
    pub passes: Option<S>,
}
