//! Why the program makes no report.
ghost use Rattle.std.specs.Prelude.{◌≡◌};
ghost use Rattle.racl_io.specs.declared.fault.Fault.TheVariants.{Memory};

use acl_policy::PolicyFault;
use packet_view::CaptureFault;
use std::alloc::{AllocError, AllocFailed};
use thiserror::Error;

/// Why no report was made, in the order in which the causes are looked for, from `Twice` to `LongRecord` in one capture
/// after the other; lines, and records of a capture, are counted from 1.
#[derive(Clone, Copy, Debug, PartialEq, Eq, Error)]
pub enum Fault {
    #[error("no memory")]
    Memory,
    #[error("read failed")]
    Read,
    #[error("input over 67108864 bytes")]
    TooLarge,
    #[error("no pcap or hex line")]
    NoCapture,
    #[error("{}", PolicyFault::NotUtf8)]
    NotUtf8,
    #[error("{}", PolicyFault::BadLine(*.0))]
    BadLine(u64),
    #[error("{}", PolicyFault::TooMany(*.0))]
    TooMany(u64),
    #[error("interface {0} has two captures")]
    Twice(u8),
    #[error("bad hexadecimal")]
    Hex,
    #[error("capture header is short")]
    Short,
    #[error("not a pcap capture")]
    Magic,
    #[error("capture version is not 2")]
    Version,
    #[error("capture is not Ethernet")]
    LinkType,
    #[error("record {0} is too long")]
    LongRecord(u64),
    #[error("write failed")]
    Write,
}

impl From<AllocError> for Fault {
    ghost from_gives = { λ _ e. e ≡ Memory };

    fn from(_e: AllocError) -> Fault {
        Fault::Memory
    }
}

impl<T: Drop> From<AllocFailed<T>> for Fault {
    ghost from_gives = { λ _ e. e ≡ Memory };

    fn from(_e: AllocFailed<T>) -> Fault {
        Fault::Memory
    }
}

impl From<PolicyFault> for Fault {
    ghost use Rattle.racl_io.specs.Faults.{policy_fault};

    ghost from_gives = { λ cause fault. fault ≡ policy_fault cause };

    fn from(cause: PolicyFault) -> Fault {
        match cause {
            PolicyFault::Memory => Fault::Memory,
            PolicyFault::NotUtf8 => Fault::NotUtf8,
            PolicyFault::BadLine(number) => Fault::BadLine(number),
            PolicyFault::TooMany(number) => Fault::TooMany(number),
        }
    }
}

impl From<CaptureFault> for Fault {
    ghost use Rattle.racl_io.specs.Faults.{capture_fault};

    ghost from_gives = { λ cause fault. fault ≡ capture_fault cause };

    fn from(cause: CaptureFault) -> Fault {
        match cause {
            CaptureFault::Short => Fault::Short,
            CaptureFault::Magic => Fault::Magic,
            CaptureFault::Version => Fault::Version,
            CaptureFault::LinkType => Fault::LinkType,
            CaptureFault::LongRecord(number) => Fault::LongRecord(number),
            CaptureFault::Memory => Fault::Memory,
        }
    }
}
