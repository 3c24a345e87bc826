//! Sets of packets, given number by number.
use packet_view::Family;

/// What a packet shows beyond its addresses and its protocol.
#[derive(Clone, Copy, Debug, PartialEq, Eq)]
pub enum Shown {
    Nothing,
    PortPair,
    PortsAndFlags,
    TypeAndCode,
}

/// What the numbers of a region's packets are beyond the addresses and the protocol. Ranges hold both their ends.
#[derive(Clone, Copy)]
pub struct Numbers {
    pub first: (u128, u128),
    pub second: (u128, u128),
    /// Flags that each packet has.
    pub ones: u8,
    /// Flags that none has.
    pub zeros: u8,
}

/// The packets of a family that show so much, and whose numbers are in these ranges.
#[derive(Clone, Copy)]
pub struct Region {
    pub family: Family,
    pub shown: Shown,
    pub source: (u128, u128),
    pub dest: (u128, u128),
    pub proto: (u128, u128),
    pub numbers: Numbers,
}
