//! A packet's update with the rules that are asked late.
ghost use Rattle.flow_filter.specs.Filters.{section_in};
ghost use Rattle.flow_filter.specs.Liveness.{IsForeseen};
ghost use Rattle.flow_filter.specs.PacketFlows.{IsRulingOn};

use super::matching::{rule, udp};
use super::{EVERY, TIMES};
use acl_policy::Action;
use bihash_words::{Change, Patch, Reply};
use flow_filter::{HasReading, InterfaceFilter, LazyPatch, PacketFlow, RuleSearch, Ruleset};
use packet_view::Direction;
use session_state::{Verdict, orient};
use std::marker::Brand;

/// The UDP session whose last packet came in second 1000.
const LAST_AT_1000: u64 = 1000;

/// What came of a packet that found this value, and whether the rules were asked for it.
#[derive(Clone, Copy, Debug, PartialEq, Eq)]
struct Outcome {
    change: Change,
    asked: bool,
    verdict: Verdict,
}

// For tests of lazy patches: what comes of a packet under a reading that proofs know.
fn outcome_as<D: HasReading>(
    filter: &InterfaceFilter<'_>,
    packet: PacketFlow<'_>,
    reply: Reply,
    found: Option<u64>,
) -> Outcome
    requires ruling { IsRulingOn (section_in filter.now) packet D.ruling }
    requires lives { IsForeseen filter.now.times packet.moment D.is_live }
{
    let patch = LazyPatch::<D>::new(filter, packet);
    let change = patch.decide(found);
    Outcome {
        change,
        asked: patch.has_asked(),
        verdict: patch.verdict(reply),
    }
}

// For tests of lazy patches: what comes of a packet whose update finds this value and gets this reply.
fn outcome_of(
    filter: &InterfaceFilter<'_>,
    packet: PacketFlow<'_>,
    reply: Reply,
    found: Option<u64>,
) -> Outcome {
    outcome_as::<Brand>(filter, packet, reply, found)
}

/// What comes of the UDP packet in a second, where rules are asked late and every UDP packet meets this action.
fn udp_outcome(action: Action, moment: u32, reply: Reply, found: Option<u64>) -> Option<Outcome> {
    let rules = [rule(action, 17, EVERY, EVERY, (0, 0))];
    let search = RuleSearch::Listed(&rules);
    let listed = Ruleset { search };
    let filter = InterfaceFilter {
        interface: 0,
        own: None,
        inbound: listed,
        outbound: listed,
        times: TIMES,
    };
    let tuple = udp(80, 1000);
    let flow = orient(&tuple)?;
    let packet = PacketFlow {
        moment,
        direction: Direction::Inbound,
        tuple: &tuple,
        flow: &flow,
    };
    Some(outcome_of(&filter, packet, reply, found))
}

/// Rules that are asked late: none is asked in the last second of a stored session.
#[test]
fn packet_of_a_live_session_asks_no_rules(rt: HostRuntime) {
    let found = Some(LAST_AT_1000);
    assert!(rt;
        udp_outcome(Action::Deny, 1600, Reply::Changed(found), found)
            == Some(Outcome {
                change: Change::Set(1600),
                asked: false,
                verdict: Verdict::Session,
            })
    );
}
