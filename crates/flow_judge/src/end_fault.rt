//! Why a judge's table of one family could not be closed or opened again.
ghost use Rattle.std.specs.Prelude.{◌≡◌};
ghost use Rattle.flow_judge.specs.EndFaults;

use bihash_table::{CloseFault, RenewFault};

/// Why a table could not be closed or opened again. It is as it was.
#[derive(Clone, Copy, Debug, PartialEq, Eq)]
pub enum EndFault {
    /// Another judge wasn't joined into this one.
    Strangers,
    /// Each was, but another one's share of the tables was not let go of yet.
    Contended,
    /// Memory was refused.
    Memory,
}

/// The same of a close.
pub fn end_of_close(fault: CloseFault) -> EndFault
    ensures { result ≡ EndFaults.end_of_close fault }
{
    match fault {
        CloseFault::Strangers => EndFault::Strangers,
        CloseFault::Memory => EndFault::Memory,
    }
}

/// The same of a renewal.
pub fn end_of_renewal(fault: RenewFault) -> EndFault
    ensures { result ≡ EndFaults.end_of_renewal fault }
{
    match fault {
        RenewFault::Strangers => EndFault::Strangers,
        RenewFault::Memory => EndFault::Memory,
    }
}
