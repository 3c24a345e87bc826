//! What rules leave of other rules' packets: by hand, and beside a look at each packet of a small world.
use super::matching::rule;
use super::{EVERY, filter_test_refused};
use acl_policy::{Action, Rule, is_match};
use packet_view::{Family, Fields, Tuple};
use rule_cover::{Cover, least_takers, uncovered};
use std::test::Fail;

// A rule for every packet from 10.0.0.0 with so many bits, or from 10.0.0.128, for tests of covers.
fn from_prefix(upper: bool, length: u8) -> Rule {
    Rule {
        action: Action::Permit,
        family: Family::V4,
        source: (if upper { 0x0a000080 } else { 0x0a000000 }, length.min(32)),
        dest: (0, 0),
        proto: 0,
        first: EVERY,
        second: EVERY,
        value: 0,
        mask: 0,
    }
}

// A rule for a protocol, with destination ports and flags, for tests of covers.
fn of_protocol(proto: u8, second: (u16, u16), flags: (u8, u8)) -> Rule {
    rule(Action::Permit, proto, EVERY, second, flags)
}

// A packet from 10.0.0.0 or one of the addresses behind it, for tests of covers.
fn packet(last: u8, proto: u8) -> Tuple {
    Tuple {
        interface: 0,
        family: Family::V4,
        source: 0x0a000000 + u128::from(last),
        dest: 0,
        proto,
        fields: Fields::Absent,
    }
}

// Such a packet of TCP, for tests of covers.
fn segment(last: u8, to: u16, flags: u8) -> Tuple {
    Tuple {
        interface: 0,
        family: Family::V4,
        source: 0x0a000000 + u128::from(last),
        dest: 0,
        proto: 6,
        fields: Fields::Tcp { from: 0, to, flags },
    }
}

// Such a packet of UDP, for tests of covers.
fn datagram(last: u8) -> Tuple {
    Tuple {
        interface: 0,
        family: Family::V4,
        source: 0x0a000000 + u128::from(last),
        dest: 0,
        proto: 17,
        fields: Fields::Ports { from: 0, to: 0 },
    }
}

// Such a packet that asks for an echo, for tests of covers.
fn echo(last: u8) -> Tuple {
    Tuple {
        interface: 0,
        family: Family::V4,
        source: 0x0a000000 + u128::from(last),
        dest: 0,
        proto: 1,
        fields: Fields::Icmp { kind: 8, code: 0 },
    }
}

// Such packets of each kind that the rules of the small world tell apart.
fn packets(last: u8) -> [Tuple; 15] {
    [
        packet(last, 1),
        packet(last, 5),
        packet(last, 6),
        packet(last, 17),
        packet(last, 47),
        segment(last, 1, 0),
        segment(last, 1, 2),
        segment(last, 1, 16),
        segment(last, 1, 18),
        segment(last, 2, 0),
        segment(last, 2, 2),
        segment(last, 2, 16),
        segment(last, 2, 18),
        datagram(last),
        echo(last),
    ]
}

// The rules of the small world.
fn world() -> [Rule; 10] {
    [
        from_prefix(false, 0),
        from_prefix(false, 31),
        of_protocol(6, (0, 1), (0, 0)),
        of_protocol(6, (2, 65535), (0, 0)),
        of_protocol(6, EVERY, (2, 2)),
        of_protocol(6, EVERY, (0, 2)),
        of_protocol(6, EVERY, (16, 18)),
        of_protocol(17, EVERY, (0, 0)),
        of_protocol(1, EVERY, (0, 0)),
        of_protocol(47, EVERY, (0, 0)),
    ]
}

// Whether a packet of the small world is matched by both rules, and by none of two others.
fn leaves(one: &Rule, two: &Rule, others: &[Rule]) -> bool {
    for last in 0..3u8 {
        for tuple in &packets(last) {
            let taken = others.iter().any(|other| is_match(other, tuple));
            if is_match(one, tuple) && is_match(two, tuple) && !taken {
                return true;
            }
        }
    }
    false
}

/// Each pair of rules of a small world beside each pair of others: a packet is left where one of its packets is, and it is
/// matched by both and by no other.
#[test]
fn small_world(rt: HostRuntime) -> Result<(), Fail> {
    let rules = world();
    for one in &rules {
        for two in &rules {
            for k in 0..9usize {
                let others = &rules[k..k + 2];
                let left = leaves(one, two, others);
                let mut tests: u64 = 10_000;
                match uncovered(rt.alloc(), &mut tests, one, two, others)? {
                    Cover::Left(tuple) => {
                        assert!(rt; left && is_match(one, &tuple) && is_match(two, &tuple));
                        assert!(rt; !is_match(&others[0], &tuple) && !is_match(&others[1], &tuple));
                    }
                    Cover::Taken(..) => assert!(rt; !left),
                    Cover::Unknown => assert!(rt; false),
                }
            }
        }
    }
    Ok(())
}

/// Halves of a network take it together, and each flag with and without; without one of them a packet is left. Later fragments
/// have no ports and no flags, so that one rule of TCP takes those of all others. One test is too few for two rules.
#[test]
fn rules_together(rt: HostRuntime) -> Result<(), Fail> {
    let mut tests: u64 = 10_000;
    let whole = from_prefix(false, 24);
    let halves = [
        from_prefix(true, 25),
        of_protocol(17, (53, 53), (0, 0)),
        from_prefix(false, 25),
    ];
    let Cover::Taken(marks) = uncovered(rt.alloc(), &mut tests, &whole, &whole, &halves)? else {
        return filter_test_refused();
    };
    let least = least_takers(rt.alloc(), &mut tests, &whole, &halves, &marks)?;
    assert!(rt; least.as_slice() == &[0, 2][..]);
    let upper = uncovered(rt.alloc(), &mut tests, &whole, &whole, &halves[1..])?;
    assert!(rt; upper == Cover::Left(segment(128, 0, 0)));
    let tcp = of_protocol(6, EVERY, (0, 0));
    let flags = [of_protocol(6, EVERY, (2, 2)), of_protocol(6, EVERY, (0, 2))];
    let taken = uncovered(rt.alloc(), &mut tests, &tcp, &tcp, &flags)?;
    assert!(rt; matches!(&taken, Cover::Taken(marks) if marks.as_slice() == &[true, true][..]));
    let opening = uncovered(rt.alloc(), &mut tests, &tcp, &tcp, &flags[1..])?;
    assert!(rt;
        matches!(
            &opening,
            Cover::Left(Tuple {
                fields: Fields::Tcp {
                    from: 0,
                    to: 0,
                    flags: 2
                },
                ..
            })
        )
    );
    let udp = of_protocol(17, EVERY, (0, 0));
    let none = uncovered(rt.alloc(), &mut tests, &tcp, &udp, &[])?;
    assert!(rt; matches!(&none, Cover::Taken(marks) if marks.is_empty()));
    let mut one: u64 = 1;
    let unknown = uncovered(rt.alloc(), &mut one, &tcp, &tcp, &flags)?;
    assert!(rt; unknown == Cover::Unknown && one == 0);
    Ok(())
}
