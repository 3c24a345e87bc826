//! The interfaces where two policies have different own addresses.
ghost use Rattle.std.specs.Prelude.{◌≡◌, ◌↔◌, [], IfOk, IsTrue};
ghost use Rattle.acl_policy.specs.Policies.{policy_facts, section_of};
ghost use Rattle.policy_compare.specs.Comparisons.{OwnDiffer};
ghost use Rattle.policy_compare.specs.inner.Found.{Adds, IsOtherBefore};

use acl_policy::Policy;
use packet_view::Mac;
use std::alloc::{AllocError, Global};

/// The own address of an interface.
pub fn own_at(policy: &Policy, interface: u8) -> Option<Mac>
    ensures { result ≡ (section_of interface (policy_facts policy.now)).own }
{
    match policy.section(interface) {
        Some(section) => section.own,
        None => None,
    }
}

// Whether the own addresses of an interface differ.
fn own_differ(before: &Policy, after: &Policy, interface: u8) -> bool
    ensures { IsTrue result ↔ OwnDiffer (policy_facts before.now) (policy_facts after.now) interface }
{
    own_at(before, interface) != own_at(after, interface)
}

/// The interfaces where the own addresses differ, in the order of their numbers.
pub fn other_addresses(
    alloc: Global,
    before: &Policy,
    after: &Policy,
) -> Result<Vec<u8>, AllocError>
    ensures { IfOk result (λ all. Adds (λ n. n) (OwnDiffer (policy_facts before.now) (policy_facts after.now))
        (IsOtherBefore (policy_facts before.now) (policy_facts after.now) 256) [] all.items) }
{
    let mut all = Vec::new(alloc);
    for number in 0..256u16 {
        let interface = number as u8;
        if own_differ(before, after, interface) {
            all.push(interface)?;
        }
    }
    Ok(all)
}
