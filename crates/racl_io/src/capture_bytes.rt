//! Captures whose bytes are at hand.

/// The bytes of a capture, and the number of the interface where it was taken.
#[derive(Drop)]
pub struct CaptureBytes {
    pub interface: u8,
    pub bytes: Vec<u8>,
}
