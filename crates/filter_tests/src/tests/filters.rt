//! Rules that are searched one by one and by their index, and those of each interface.
ghost use Rattle.std.specs.Prelude.{IsTrue};
ghost use Rattle.packet_view.specs.Addresses.{fields_suit};
ghost use Rattle.packet_view.specs.declared.tuple.Family.TheVariants as Family;

use super::{TIMES, filter_test_refused};
use acl_policy::{Action, read_policy};
use flow_filter::Filter;
use packet_view::{Direction, Family, Fields, Mac, Tuple};
use std::alloc::{AllocError, Global};
use std::test::Fail;

/// A packet from 10.0.0.2 to 10.0.0.1, for which tests ask a filter's rules.
fn filtered_tuple(proto: u8, fields: Fields) -> Tuple
    requires fits { IsTrue (fields_suit Family.V4 proto fields) }
{
    Tuple {
        interface: 0,
        family: Family::V4,
        source: 0x0a000002,
        dest: 0x0a000001,
        proto,
        fields,
    }
}

// The filter of this policy, whose rules a test asks. `None`: it is no policy, or memory was refused.
fn filter_of(alloc: Global, text: &[u8]) -> Option<Filter> {
    match read_policy(alloc, text) {
        Ok(policy) => Some(Filter {
            policy,
            times: TIMES,
        }),
        Err(_) => None,
    }
}

/// The policy of a test's filter: 70 times `in deny ipv4 any any tcp`, and then a rule for UDP.
fn many_filter_rules(alloc: Global) -> Result<Vec<u8>, AllocError> {
    let mut text = Vec::new(alloc);
    for _ in 0..70 {
        text.extend_from_slice(b"in deny ipv4 any any tcp\n")?;
    }
    text.extend_from_slice(b"in permit ipv4 any any udp\n")?;
    Ok(text)
}

/// A filter's inbound rules, searched one by one and by their index, which is made for any number of packets.
#[test]
fn prepared_rules_decide_as_the_listed_ones(rt: HostRuntime) -> Result<(), Fail> {
    let Ok(text) = many_filter_rules(rt.alloc()) else {
        return filter_test_refused();
    };
    let Some(filter) = filter_of(rt.alloc(), text.as_slice()) else {
        return filter_test_refused();
    };
    let Ok(prepared) = filter.prepare(rt.alloc(), usize::MAX) else {
        return filter_test_refused();
    };
    let Some(first) = prepared.first() else {
        return filter_test_refused();
    };
    assert!(rt; first.inbound.is_some() && first.outbound.is_none());
    let Ok(all) = filter.ready_with(rt.alloc(), &prepared) else {
        return filter_test_refused();
    };
    let udp = filtered_tuple(17, Fields::Ports { from: 80, to: 1000 });
    for ready in [filter.ready(0), *all.at(0)] {
        let inbound = ready.rules_of(Direction::Inbound);
        assert!(rt; inbound.first_match(&udp) == Some((70, Action::Permit)));
    }
    Ok(())
}

/// A filter has at each interface the rules of its section, and without a section neither an own address nor rules.
#[test]
fn filter_of_two_interfaces(rt: HostRuntime) -> Result<(), Fail> {
    let text = b"mac 02:00:00:00:00:01\nin deny ipv4 any any tcp\n\
        interface 2\nmac 02:00:00:00:00:02\nin permit ipv4 any any udp\n";
    let Some(filter) = filter_of(rt.alloc(), text) else {
        return filter_test_refused();
    };
    let Ok(prepared) = filter.prepare(rt.alloc(), 10) else {
        return filter_test_refused();
    };
    let Ok(all) = filter.ready_with(rt.alloc(), &prepared) else {
        return filter_test_refused();
    };
    let udp = filtered_tuple(17, Fields::Ports { from: 80, to: 1000 });
    for (number, own, rule) in [
        (0, Some(1), None),
        (1, None, None),
        (2, Some(2), Some((0, Action::Permit))),
    ] {
        let own = own.map(|last| Mac([2, 0, 0, 0, 0, last]));
        assert!(rt; all.at(number).own == own);
        let inbound = filter.ready(number).rules_of(Direction::Inbound);
        assert!(rt; inbound.first_match(&udp) == rule);
    }
    Ok(())
}
