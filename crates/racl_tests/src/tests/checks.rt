//! What a check finds in a policy's text. `tests/rows/checks.txt` has what is told of each reason and remark.
use packet_view::Direction;
use policy_check::{Remark, check_policy, remarks_on};
use std::test::Fail;

/// Checks of a policy: remarks on a section without an own address and on a shadowed rule.
#[test]
fn rule_behind_one_that_takes_its_packets(rt: HostRuntime) -> Result<(), Fail> {
    let text = b"interface 9\nout deny ipv4 any any\nout permit ipv4 any 10.0.0.1 tcp\n";
    let checked = check_policy(rt.alloc(), text)?;
    let remarks = remarks_on(rt.alloc(), &checked.policy)?;
    let wanted = [
        Remark::NoMac(9),
        Remark::Shadowed(9, Direction::Outbound, 2, 1),
    ];
    assert!(rt; remarks.as_slice() == wanted.as_slice());
    Ok(())
}
