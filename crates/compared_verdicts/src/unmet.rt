//! Which verdicts aren't as expected.
ghost use Rattle.std.specs.Prelude.{◌≡◌, ◌+◌, ◌<◌, ◌^◌, length};
ghost use Rattle.compared_verdicts.specs.Meeting;
ghost use Rattle.compared_verdicts.specs.Meeting.{open_in, unmet_at, unmet_from};

use crate::expectation::{Expectation, Expected, Total, Wanted};
use packet_words::kind_of;
use racl_io::Totals;
use session_state::Verdict;

// The number of the rule that decided, and 0 where none did.
fn number_in(verdict: Verdict) -> u16
    ensures { result ≡ Meeting.number_in verdict }
{
    match verdict {
        Verdict::Reflect(number) | Verdict::Permit(number) | Verdict::Deny(number) => number,
        _ => 0,
    }
}

// Whether a rule decided.
fn is_by_rule(verdict: Verdict) -> bool
    ensures { result ≡ Meeting.is_by_rule verdict }
{
    1 <= kind_of(verdict) && kind_of(verdict) <= 3
}

// Whether the one is of a rule that lets packets pass, and the other of the same that reflects.
fn is_permitted_in(wanted: Verdict, verdict: Verdict) -> bool
    ensures { result ≡ Meeting.is_permitted_in wanted verdict }
{
    match (wanted, verdict) {
        (Verdict::Permit(number), Verdict::Reflect(other)) => number == other,
        (_, _) => false,
    }
}

// Whether a verdict is wanted.
fn meets(wanted: Wanted, verdict: Verdict) -> bool
    ensures { result ≡ Meeting.meets wanted verdict }
{
    match wanted {
        Wanted::Pass => verdict.passes(),
        Wanted::Drop => !verdict.passes(),
        Wanted::PassByRule => is_by_rule(verdict) && verdict.passes(),
        Wanted::DropByRule => is_by_rule(verdict) && !verdict.passes(),
        Wanted::Exactly(wanted) => {
            kind_of(wanted) == kind_of(verdict) && number_in(wanted) == number_in(verdict)
                || is_permitted_in(wanted, verdict)
        }
    }
}

/// Whether the packet with this number has a verdict that isn't as expected.
pub fn is_unmet(expected: Expected, number: u64, verdict: Verdict) -> bool
    ensures { result ≡ Meeting.is_unmet expected number verdict }
{
    match expected {
        Expected::Verdicts(first, last, wanted) => {
            first <= number && (number <= last && !meets(wanted, verdict))
        }
        Expected::InAll(_, _) => false,
    }
}

// Whether it isn't as one of these expects.
fn is_unmet_at(expectations: &[Expectation], number: u64, verdict: Verdict) -> bool
    ensures { result ≡ unmet_at expectations.now number verdict }
{
    expectations
        .iter()
        .any(|e| is_unmet(e.expected, number, verdict))
}

/// Whether packets, before which there were so many others, have a verdict that isn't as one of these expects.
pub fn any_unmet(expectations: &[Expectation], others: u64, verdicts: &[Verdict]) -> bool
    requires { others + length verdicts.now < 2 ^ 64 }
    ensures { result ≡ unmet_from expectations.now (others + 1) verdicts.now }
{
    let mut number = others;
    let mut rest = verdicts;
    'verdicts: while let Some((verdict, behind)) = rest.split_first() {
        number += 1;
        if is_unmet_at(expectations, number, *verdict) {
            return true;
        }
        rest = behind;
    }
    false
}

/// The number in the totals.
pub fn total_of(total: Total, totals: &Totals) -> u64
    ensures { result ≡ Meeting.total_of total totals.now }
{
    match total {
        Total::Packets => totals.packets,
        Total::Passed => totals.passed,
        Total::Dropped => totals.dropped,
    }
}

// Whether a packet isn't there that is expected, or a total is another.
fn is_open(expected: Expected, totals: &Totals) -> bool
    ensures { result ≡ Meeting.is_open expected totals.now }
{
    match expected {
        Expected::Verdicts(_, last, _) => totals.packets < last,
        Expected::InAll(total, count) => total_of(total, totals) != count,
    }
}

/// Whether a packet isn't there that one of these expects, or a total is another.
pub fn any_open(expectations: &[Expectation], totals: &Totals) -> bool
    ensures { result ≡ open_in expectations.now totals.now }
{
    expectations.iter().any(|e| is_open(e.expected, totals))
}
