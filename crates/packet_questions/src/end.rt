//! The ends of a packet.
ghost use Rattle.std.specs.Prelude.{◌<◌};
ghost use Rattle.packet_view.specs.Addresses.{address_limit};

use packet_view::Family;

/// An address of a family.
#[derive(Clone, Copy)]
pub struct End {
    pub family: Family,
    pub address: u128,
    pub ghost fits: { address < address_limit family },
}

/// The addresses of both ends.
#[derive(Clone, Copy)]
pub struct Ends {
    pub family: Family,
    pub source: u128,
    pub dest: u128,
    pub ghost source_fits: { source < address_limit family },
    pub ghost dest_fits: { dest < address_limit family },
}
