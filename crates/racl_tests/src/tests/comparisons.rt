//! What two policies decide differently. `tests/program/compare.py` compares more of them, and takes the packets to `racl ask`.
use super::racl_test_refused;
use acl_policy::{Action, read_policy};
use packet_view::{Direction, Family, Fields, Tuple};
use policy_compare::{Difference, MOST_TESTS, Pair, compare_policies, compare_texts};
use racl_io::Device;
use std::test::Fail;

const BEFORE: &[u8] = b"in permit+reflect ipv4 10.0.0.1 any udp dport 53\n";

const AFTER: &[u8] = b"in deny ipv4 any any udp dport 53\nin permit ipv6 any any 47\n";

/// Comparisons: a rule that denies what one let through, and one of the other family.
#[test]
fn a_denied_packet_and_a_new_rule(rt: HostRuntime) -> Result<(), Fail> {
    let (Ok(before), Ok(after)) = (
        read_policy(rt.alloc(), BEFORE),
        read_policy(rt.alloc(), AFTER),
    ) else {
        return racl_test_refused();
    };
    let mut tests = MOST_TESTS;
    let told = compare_policies(rt.alloc(), &mut tests, &before, &after)?;
    let denied = Difference {
        pair: Pair {
            interface: 0,
            direction: Direction::Inbound,
            before: Some((1, Action::Reflect)),
            after: Some((1, Action::Deny)),
        },
        packet: Some(Tuple {
            interface: 0,
            family: Family::V4,
            source: 0x0a000001,
            dest: 0,
            proto: 17,
            fields: Fields::Ports { from: 0, to: 53 },
        }),
    };
    assert!(rt; told.differences.len() == 2 && told.differences[0] == denied);
    assert!(rt; told.interfaces.is_empty() && tests == MOST_TESTS);
    Ok(())
}

/// The report on these, whose packets are written as `racl ask` takes them.
#[test]
fn the_report_on_two_policies(rt: HostRuntime) -> Result<(), Fail> {
    let mut writer = Device::new(Vec::new(rt.alloc()));
    let mut tests = MOST_TESTS;
    assert!(rt; compare_texts(rt.alloc(), &mut tests, BEFORE, AFTER, &mut writer) == Ok(5));
    let wanted = b"\
in udp 10.0.0.1 0 0.0.0.0 53: pass rule 1 reflect -> drop rule 1
in 47 :: ::: drop default -> pass rule 2
pairs that differ 2 unknown 0
";
    assert!(rt; writer.inner.as_slice() == wanted.as_slice());
    Ok(())
}
