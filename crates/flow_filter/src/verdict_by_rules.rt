//! What the rules and the reply to its one update say of a packet.
ghost use Rattle.std.specs.Prelude.{◌≡◌, ◌<◌, ◌+◌, false};
ghost use Rattle.std.specs.Option.{ForSome};
ghost use Rattle.acl_policy.specs.Rules.{most_rules};
ghost use Rattle.bihash_words.specs.Maps.{found_by};
ghost use Rattle.session_state.specs.Decisions.{is_live_for, patch_facts};
ghost use Rattle.flow_filter.specs.Verdicts;

use acl_policy::Action;
use bihash_words::Reply;
use session_state::{PacketPatch, Verdict};

/// The number that a verdict names, of the rule at a place.
fn number_of(place: usize) -> u16
    requires { place < most_rules }
    ensures { result ≡ place + 1 }
{
    place as u16 + 1
}

/// The verdict on a packet that takes no part in sessions, by the rule that decides it.
pub fn verdict_of_rules(ruling: Option<(usize, Action)>) -> Verdict
    requires { ForSome ruling (λ decided. decided.0 < most_rules) }
    ensures { result ≡ Verdicts.verdict_of_rules ruling }
{
    match ruling {
        None => Verdict::ByDefault,
        Some((i, Action::Deny)) => Verdict::Deny(number_of(i)),
        Some((i, Action::Permit | Action::Reflect)) => Verdict::Permit(number_of(i)),
    }
}

/// The verdict on a packet that reflects, by the rule that decides it and the reply to its update.
fn verdict_reflected(ruling: Option<(usize, Action)>, reply: Reply) -> Verdict
    requires { ForSome ruling (λ decided. decided.0 < most_rules) }
    ensures { result ≡ Verdicts.verdict_reflected ruling reply }
{
    let Some((i, _)) = ruling else {
        return Verdict::ByDefault;
    };
    match reply {
        Reply::Worn(_) => Verdict::Worn,
        Reply::Full => Verdict::Full,
        Reply::NoPages { .. } => Verdict::NoPages,
        Reply::Kept(_) | Reply::Changed(_) => Verdict::Reflect(number_of(i)),
    }
}

/// The value that was found, by the reply, where a verdict by rules follows from it.
pub fn found_for_verdict(reply: Reply) -> Option<u64>
    ensures { result ≡ found_by reply }
{
    match reply {
        Reply::Kept(found) | Reply::Changed(found) | Reply::Worn(found) => found,
        Reply::Full | Reply::NoPages { .. } => None,
    }
}

/// The verdict by the rules on a packet whose update found no live session.
pub fn verdict_without_session(
    patch: &PacketPatch,
    ruling: Option<(usize, Action)>,
    reply: Reply,
) -> Verdict
    requires none { is_live_for (patch_facts patch.now) (found_by reply) ≡ false }
    requires few { ForSome ruling (λ decided. decided.0 < most_rules) }
    ensures { result ≡ Verdicts.verdict_of (patch_facts patch.now) ruling (found_by reply) reply }
{
    if patch.reflects {
        return verdict_reflected(ruling, reply);
    }
    verdict_of_rules(ruling)
}
