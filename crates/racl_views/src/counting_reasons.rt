//! How many packets have a verdict that is no rule's.
ghost use Rattle.std.specs.Prelude.{◌≡◌, ◌+◌, ◌++◌, ◌<◌, ◌^◌, [], List, count_by, length};
ghost use Rattle.session_state.specs.declared.verdict.Verdict as said;
ghost use Rattle.racl_views.specs.HitCounts.{CountReasons};
ghost use Rattle.racl_views.specs.Hits;

use session_state::Verdict;

/// Why a packet met a verdict that is no rule's.
#[derive(Clone, Copy)]
pub enum NoRule {
    Session,
    ByDefault,
    Full,
    Worn,
    NoPages,
    NotIp,
    Malformed,
    Short,
}

// Whether a packet with this verdict is counted for this reason.
fn has_reason(reason: NoRule, verdict: Verdict) -> bool
    ensures { result ≡ Hits.has_reason reason verdict }
{
    match (reason, verdict) {
        (NoRule::Session, Verdict::Session)
        | (NoRule::ByDefault, Verdict::ByDefault)
        | (NoRule::Full, Verdict::Full)
        | (NoRule::Worn, Verdict::Worn)
        | (NoRule::NoPages, Verdict::NoPages)
        | (NoRule::NotIp, Verdict::NotIp)
        | (NoRule::Malformed, Verdict::Malformed)
        | (NoRule::Short, Verdict::Short) => true,
        _ => false,
    }
}

// How many packets have this verdict.
fn count_reason(reason: NoRule, verdicts: &[Verdict]) -> u64
    ensures { result ≡ count_by (Hits.has_reason reason) verdicts.now }
{
    let mut count = 0;
    'verdicts: for verdict in verdicts {
        if has_reason(reason, *verdict) {
            count += 1;
        }
    }
    count
}

/// How many packets have a verdict that is no rule's, for each reason.
#[derive(Clone, Copy)]
pub struct ReasonCounts {
    pub session: u64,
    pub by_default: u64,
    pub full: u64,
    pub worn: u64,
    pub no_pages: u64,
    pub not_ip: u64,
    pub malformed: u64,
    pub short: u64,
}

/// Those of no packets.
pub fn no_reasons() -> ReasonCounts
    ensures { CountReasons [] result }
{
    ReasonCounts {
        session: 0,
        by_default: 0,
        full: 0,
        worn: 0,
        no_pages: 0,
        not_ip: 0,
        malformed: 0,
        short: 0,
    }
}

/// Counts the reasons of more packets, by their verdicts.
pub fn count_reasons(counts: &mut ReasonCounts, verdicts: &[Verdict])
    requires { (said : List said.Verdict) × CountReasons said counts.old × (length said + length verdicts.now < 2 ^ 64) }
    ensures { (said : List said.Verdict) → CountReasons said counts.old → CountReasons (said ++ verdicts.now) counts.new }
{
    counts.session += count_reason(NoRule::Session, verdicts);
    counts.by_default += count_reason(NoRule::ByDefault, verdicts);
    counts.full += count_reason(NoRule::Full, verdicts);
    counts.worn += count_reason(NoRule::Worn, verdicts);
    counts.no_pages += count_reason(NoRule::NoPages, verdicts);
    counts.not_ip += count_reason(NoRule::NotIp, verdicts);
    counts.malformed += count_reason(NoRule::Malformed, verdicts);
    counts.short += count_reason(NoRule::Short, verdicts);
}
