//! A capture of an interface that is read.

/// A capture that was taken at the interface with this number, and what its bytes come from.
#[derive(Drop)]
pub struct InterfaceCapture<R> {
    pub interface: u8,
    pub reader: R,
}
