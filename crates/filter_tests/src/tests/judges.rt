//! A judge of packets that sweeps, and of which each family's table is closed; and counts by rule. What is expected is worked out
//! by hand.
use super::TIMES;
use super::session_tables::{NAMES, answer_for_tables, request_for_tables};
use acl_policy::read_policy;
use bihash_words::{ShapeV4, ShapeV6};
use flow_judge::{Judge, RuleCounts, TakeFault};
use flow_workers::Verdict;
use packet_view::{Direction, Family};
use session_state::Timeouts;
use std::alloc::Global;

// The verdict on a request, how many sessions each family's table gives then, and the verdict on the same request over the new
// tables. `None`: memory was refused.
fn verdicts_round_closed_tables(alloc: Global) -> Option<(Verdict, usize, usize, Verdict)> {
    let Ok(mut judge) = Judge::<ShapeV4, ShapeV6>::new(alloc, NAMES.as_bytes(), TIMES) else {
        return None;
    };
    let frame = request_for_tables(2);
    let Ok(first) = judge.judge(0, 100, &frame) else {
        return None;
    };
    let (four, judge) = judge.close_four(alloc);
    let Ok(four) = four else {
        return None;
    };
    let (six, mut judge) = judge.close_six(alloc);
    let Ok(six) = six else {
        return None;
    };
    let Ok(again) = judge.judge(0, 101, &frame) else {
        return None;
    };
    Some((first.verdict, four.len(), six.len(), again.verdict))
}

#[test]
fn a_closed_family_gives_its_sessions(rt: HostRuntime) {
    let found = verdicts_round_closed_tables(rt.alloc());
    assert!(rt; found == Some((Verdict::Reflect(1), 1, 0, Verdict::Reflect(1))));
}

// Whether a judge is alone, how many sessions of a request at second 100 went by this second and the next one, and how many
// pages no bucket had then. `None`: memory was refused.
fn swept_after_a_request(alloc: Global, moment: u32) -> Option<(bool, u64, u64, u64)> {
    let Ok(mut judge) = Judge::<ShapeV4, ShapeV6>::new(alloc, NAMES.as_bytes(), TIMES) else {
        return None;
    };
    let frame = request_for_tables(2);
    if judge.judge(0, 100, &frame).is_err() {
        return None;
    }
    let is_lone = judge.is_lone();
    let live = judge.sweep(Family::V4, 0, 4096, moment, u64::MAX);
    let ended = judge.sweep(Family::V4, 0, 4096, moment.saturating_add(1), u64::MAX);
    if live.met || ended.met || live.next != 4096 || ended.next != 4096 {
        return None;
    }
    Some((
        is_lone,
        live.went,
        ended.went,
        judge.unused_pages(Family::V4),
    ))
}

#[test]
fn a_judge_sweeps_what_has_ended(rt: HostRuntime) {
    let found = swept_after_a_request(rt.alloc(), 700);
    assert!(rt; found == Some((true, 0, 1, 16_383)));
}

// Of whom sessions of UDP live for 10 seconds.
fn brief_judge(alloc: Global) -> Option<Judge<ShapeV4, ShapeV6>> {
    let times = Timeouts {
        established: 86400,
        transient: 120,
        udp: 10,
    };
    match Judge::new(alloc, NAMES.as_bytes(), times) {
        Ok(judge) => Some(judge),
        Err(_) => None,
    }
}

// One of two judges over the same tables enters a session at second 105, and the other one is to take briefer timeouts: whether it is
// told that it isn't alone, how many sessions go by its sweep at second 116, and the verdict on the session's answer at second 117.
// `None`: memory was refused, or the judges met.
fn session_beside_a_judge_with_other_timeouts(alloc: Global) -> Option<(bool, u64, Verdict)> {
    let Ok(judge) = Judge::<ShapeV4, ShapeV6>::new(alloc, NAMES.as_bytes(), TIMES) else {
        return None;
    };
    let brief = brief_judge(alloc)?;
    let Ok((mut judge, mut other)) = judge.split(alloc) else {
        return None;
    };
    if judge.judge(0, 105, &request_for_tables(2)).is_err() {
        return None;
    }
    let is_told = matches!(other.take_policy(&brief), Err(TakeFault::Strangers));
    let swept = other.sweep(Family::V4, 0, 4096, 116, u64::MAX);
    let Ok(answer) = judge.judge(0, 117, &answer_for_tables(2)) else {
        return None;
    };
    Some((is_told, swept.went, answer.verdict))
}

#[test]
fn judges_over_the_same_tables_have_the_same_timeouts(rt: HostRuntime) {
    let found = session_beside_a_judge_with_other_timeouts(rt.alloc());
    assert!(rt; found == Some((true, 0, Verdict::Session)));
}

// So of a judge that is alone: whether it takes them, and how many sessions go then. `None`: memory was refused.
fn session_of_a_lone_judge_with_other_timeouts(alloc: Global) -> Option<(bool, u64)> {
    let Ok(mut judge) = Judge::<ShapeV4, ShapeV6>::new(alloc, NAMES.as_bytes(), TIMES) else {
        return None;
    };
    let brief = brief_judge(alloc)?;
    if judge.judge(0, 105, &request_for_tables(2)).is_err() {
        return None;
    }
    let is_taken = judge.take_policy(&brief).is_ok();
    let swept = judge.sweep(Family::V4, 0, 4096, 116, u64::MAX);
    Some((is_taken, swept.went))
}

#[test]
fn a_lone_judge_takes_other_timeouts(rt: HostRuntime) {
    let found = session_of_a_lone_judge_with_other_timeouts(rt.alloc());
    assert!(rt; found == Some((true, 1)));
}

// How many packets were counted for the policy's one rule, for one behind it and for no rule, where one of each came. `None`:
// memory was refused.
fn counts_by_rule(alloc: Global) -> Option<(u64, u64, u64)> {
    let Ok(policy) = read_policy(alloc, NAMES.as_bytes()) else {
        return None;
    };
    let Ok(mut counts) = RuleCounts::of(alloc, &policy) else {
        return None;
    };
    counts.count(0, Direction::Outbound, 1);
    counts.count(0, Direction::Outbound, 2);
    counts.count(0, Direction::Inbound, 0);
    Some((
        counts.at(0, Direction::Outbound, 1),
        counts.at(0, Direction::Outbound, 2),
        counts.at(0, Direction::Inbound, 0),
    ))
}

#[test]
fn packets_are_counted_by_rule(rt: HostRuntime) {
    let found = counts_by_rule(rt.alloc());
    assert!(rt; found == Some((1, 0, 1)));
}
