//! A captured packet.

/// A frame, the number of the interface where it was seen, the whole seconds at which it was, and the microseconds after
/// them. A capture may say a million microseconds or more; they stand here as they stand there.
#[derive(Clone, Copy)]
pub struct Packet<'a> {
    pub interface: u8,
    pub moment: u32,
    pub micros: u32,
    pub frame: &'a [u8],
}
