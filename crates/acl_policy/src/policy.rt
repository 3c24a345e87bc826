//! A policy, and why a text is none.
ghost use Rattle.std.specs.Prelude.{◌≤◌, length};
ghost use Rattle.acl_policy.specs.Rules.{most_rules};

use crate::rule::Rule;
use packet_view::Mac;
use std::alloc::AllocFailed;
use thiserror::Error;

/// What a policy says of one interface: its own address, and the rules of each direction in their order.
#[derive(Drop)]
pub struct Section {
    /// The number of the interface.
    pub interface: u8,
    pub own: Option<Mac>,
    pub inbound: Vec<Rule>,
    pub outbound: Vec<Rule>,
    pub ghost few_inbound: { length inbound.items ≤ most_rules },
    pub ghost few_outbound: { length outbound.items ≤ most_rules },
}

/// What a policy says of each interface that it names, and of interface 0.
#[derive(Drop)]
pub struct Policy {
    pub sections: Vec<Section>,
}

/// Why a text is no policy. Lines are counted from 1.
#[derive(Clone, Copy, Debug, PartialEq, Eq, Error)]
pub enum PolicyFault {
    #[error("no memory")]
    Memory,
    #[error("policy is not UTF-8")]
    NotUtf8,
    #[error("policy line {0} is wrong")]
    BadLine(u64),
    #[error("policy line {0} is one rule too many")]
    TooMany(u64),
}

impl<T: Drop> From<AllocFailed<T>> for PolicyFault {
    ghost use Rattle.acl_policy.specs.declared.policy.PolicyFault.TheVariants.{Memory};
    ghost use Rattle.std.specs.Prelude.{◌≡◌};

    ghost from_gives = { λ _ fault. fault ≡ Memory };

    fn from(_failed: AllocFailed<T>) -> PolicyFault {
        PolicyFault::Memory
    }
}
