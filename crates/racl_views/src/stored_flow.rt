//! A flow, as its key in a table names it.
ghost use Rattle.std.specs.Prelude.{◌<◌};
ghost use Rattle.packet_view.specs.Addresses.{address_limit};

use packet_view::Family;

/// One end of a flow, in host order. Without ports its port is 0.
#[derive(Clone, Copy)]
pub struct FlowEnd {
    pub address: u128,
    pub port: u16,
}

/// A flow at the interface with this number, and its ends in the order of its key: of an echo the one that asks first.
#[derive(Clone, Copy)]
pub struct StoredFlow {
    pub interface: u8,
    pub family: Family,
    pub proto: u8,
    pub first: FlowEnd,
    pub second: FlowEnd,
    pub ghost first_fits: { first.address < address_limit family },
    pub ghost second_fits: { second.address < address_limit family },
}
