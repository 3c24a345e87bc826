//! A policy's text with what it says, and the texts of faults. `tests/rows/policies.txt` has the lines that are refused,
//! and which packets a line takes.
use super::{EVERY, filter_test_refused};
use acl_policy::{Action, PolicyFault, Rule, empty_draft, read_policy, read_policy_line};
use packet_view::{Family, Mac};
use std::test::Fail;

/// The text of a policy with a comment, blanks, an own address and rules of both directions.
#[test]
fn whole_policy(rt: HostRuntime) -> Result<(), Fail> {
    let text = b"# a host\n\n mac 02:00:00:0a:0B:ff # here\r\n\
        out permit+reflect ipv4 10.0.0.1 any udp dport 53\n\
        in\tpermit ipv4 any 10.0.0.1/32 icmp type 8\n\
        in deny ipv6 any any";
    let Ok(read) = read_policy(rt.alloc(), text) else {
        return filter_test_refused();
    };
    let Some(policy) = read.section(0) else {
        return filter_test_refused();
    };
    assert!(rt; policy.own == Some(Mac([2, 0, 0, 10, 11, 255])));
    assert!(rt; policy.inbound.len() == 2);
    let names = Rule {
        action: Action::Reflect,
        family: Family::V4,
        source: (0x0a000001, 32),
        dest: (0, 0),
        proto: 17,
        first: EVERY,
        second: (53, 53),
        value: 0,
        mask: 0,
    };
    assert!(rt; policy.outbound.as_slice() == [names].as_slice());
    Ok(())
}

/// A policy's draft keeps what the lines before one at fault said, and takes the lines after it.
#[test]
fn a_line_at_fault_leaves_the_policy(rt: HostRuntime) -> Result<(), Fail> {
    let mut draft = empty_draft(rt.alloc());
    read_policy_line(rt.alloc(), &mut draft, b"mac 02:00:00:00:00:01", 1)?;
    let second = read_policy_line(rt.alloc(), &mut draft, b"mac 02:00:00:00:00:02", 2);
    assert!(rt; second == Err(PolicyFault::BadLine(2)));
    read_policy_line(rt.alloc(), &mut draft, b"in deny ipv4 any any", u64::MAX)?;
    assert!(rt; draft.current.own == Some(Mac([2, 0, 0, 0, 0, 1])));
    assert!(rt; draft.current.inbound.len() == 1);
    Ok(())
}

/// The message for each fault of reading a policy.
#[test]
fn policy_fault_texts(rt: HostRuntime) -> Result<(), Fail> {
    let (memory, text) = (PolicyFault::Memory, PolicyFault::NotUtf8);
    let (line, rule) = (PolicyFault::BadLine(3), PolicyFault::TooMany(4097));
    assert!(rt;
        format!(in rt.alloc(); "{memory}; {text}; {line}; {rule}")?.as_str()
            == "no memory; policy is not UTF-8; policy line 3 is wrong; policy line 4097 is one rule too many"
    );
    Ok(())
}
