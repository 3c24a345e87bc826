//! What is found of packets that are looked for.
ghost use Rattle.std.specs.Prelude.{◌≡◌};
ghost use Rattle.policy_compare.specs.inner.Findings;

use packet_view::Tuple;
use rule_cover::Cover;

/// A packet that is looked for, or whether there is one.
#[derive(Clone, Copy, Debug, PartialEq, Eq)]
pub enum Finding {
    Packet(Tuple),
    Nothing,
    /// It was not found out in so many tests.
    Unknown,
}

/// What is found of the packets that no rule takes.
pub fn finding_of(cover: Cover) -> Finding
    ensures { result ≡ Findings.finding_of cover }
{
    match cover {
        Cover::Left(tuple) => Finding::Packet(tuple),
        Cover::Taken(_) => Finding::Nothing,
        Cover::Unknown => Finding::Unknown,
    }
}

/// What is found of packets of either kind.
pub fn either(one: Finding, other: Finding) -> Finding
    ensures { result ≡ Findings.either one other }
{
    match (one, other) {
        (Finding::Packet(_), _) => one,
        (Finding::Nothing, _) => other,
        (Finding::Unknown, Finding::Packet(_)) => other,
        (Finding::Unknown, _) => one,
    }
}
