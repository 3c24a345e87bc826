//! A value that is entered under a new key, with the expiry that may make room for it.

/// The value, and which values are expired.
#[derive(Drop)]
pub(crate) struct Entrant<'k, E> {
    pub(crate) value: u64,
    pub(crate) expiry: &'k E,
}
