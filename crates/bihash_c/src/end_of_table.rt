//! Why a table could not be closed or renewed, from what the table itself answers.
ghost use Rattle.std.specs.Prelude.{◌≡◌};
ghost use Rattle.bihash_c.specs.EndFaults;

use bihash_table::{CloseFault, RenewFault};

/// Why a table could not be closed or renewed. Nothing of it changed.
#[derive(Clone, Copy, Debug, PartialEq, Eq)]
pub enum EndFault {
    /// Some caller was not joined into this one.
    Strangers,
    /// Each was, but another handle's hold of the table was not let go of yet.
    Contended,
    /// Memory was refused.
    Memory,
}

/// The same of a close.
pub fn end_of_close(fault: CloseFault) -> EndFault
    ensures { result ≡ EndFaults.end_of_close fault }
{
    match fault {
        CloseFault::Strangers => EndFault::Strangers,
        CloseFault::Memory => EndFault::Memory,
    }
}

/// The same of a renewal.
pub fn end_of_renewal(fault: RenewFault) -> EndFault
    ensures { result ≡ EndFaults.end_of_renewal fault }
{
    match fault {
        RenewFault::Strangers => EndFault::Strangers,
        RenewFault::Memory => EndFault::Memory,
    }
}
