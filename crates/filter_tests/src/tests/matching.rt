//! Rules against packets, of which `tests/rows/matching.txt` has more.
use super::EVERY;
use acl_policy::{Action, Rule, first_match};
use packet_view::{Family, Fields, Tuple};

/// A rule for every IPv4 address, for tests of matching.
pub fn rule(
    action: Action,
    proto: u8,
    first: (u16, u16),
    second: (u16, u16),
    flags: (u8, u8),
) -> Rule {
    Rule {
        action,
        family: Family::V4,
        source: (0, 0),
        dest: (0, 0),
        proto,
        first,
        second,
        value: flags.0,
        mask: flags.1,
    }
}

/// A packet from 10.0.0.2 to 10.0.0.1 by UDP, for tests of matching.
pub fn udp(from: u16, to: u16) -> Tuple {
    Tuple {
        interface: 0,
        family: Family::V4,
        source: 0x0a000002,
        dest: 0x0a000001,
        proto: 17,
        fields: Fields::Ports { from, to },
    }
}

/// A later fragment from 10.0.0.2 to 10.0.0.1, which has no ports, for tests of matching.
pub fn later_fragment(proto: u8) -> Tuple {
    Tuple {
        interface: 0,
        family: Family::V4,
        source: 0x0a000002,
        dest: 0x0a000001,
        proto,
        fields: Fields::Absent,
    }
}

/// Matching by rules one after the other: the first that matches decides.
#[test]
fn first_of_several(rt: HostRuntime) {
    let rules = [
        rule(Action::Deny, 6, EVERY, EVERY, (0, 0)),
        rule(Action::Reflect, 17, EVERY, (53, 53), (0, 0)),
        rule(Action::Permit, 17, EVERY, EVERY, (0, 0)),
    ];
    let request = udp(1000, 53);
    assert!(rt; first_match(&rules, &request) == Some((1, Action::Reflect)));
    assert!(rt; first_match(&[], &request) == None);
}
