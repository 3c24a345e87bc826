//! Which rule decided a packet.
ghost use Rattle.std.specs.Prelude.{◌≡◌, ◌<◌, ◌^◌, IfSome};
ghost use Rattle.packet_view.specs.Captures.{packet_facts};
ghost use Rattle.acl_policy.specs.Policies.{policy_facts};
ghost use Rattle.packet_view.specs.Frames.{frame_facts};
ghost use Rattle.racl_views.specs.Deciding;
ghost use Rattle.racl_views.specs.Deciding.{IsDecided};

use crate::rule_numbering::RuleName;
use acl_policy::Policy;
use packet_view::{Frame, Packet};
use packet_words::{packet_as_seen, rule_number};
use session_state::Verdict;

/// The rule that decided a packet which was seen at this interface, by what its frame is and its verdict.
pub fn rule_on(interface: u8, frame: Frame, verdict: Verdict) -> Option<RuleName>
    ensures rule { result ≡ Deciding.rule_on interface (frame_facts frame) verdict }
    ensures interface { IfSome result (λ rule. rule.interface < 2 ^ 8) }
    ensures number { IfSome result (λ rule. rule.number < 2 ^ 16) }
{
    match frame {
        Frame::Ip(direction, _) => match rule_number(verdict) {
            Some(number) => Some(RuleName {
                interface,
                direction,
                number: u64::from(number),
            }),
            None => None,
        },
        Frame::NotIp | Frame::Malformed | Frame::Short => None,
    }
}

/// The rule that decided a packet with this verdict.
pub fn deciding_rule(policy: &Policy, packet: Packet<'_>, verdict: Verdict) -> Option<RuleName>
    ensures decided { IsDecided (policy_facts policy.now) (packet_facts packet.entry) verdict result }
    ensures interface { IfSome result (λ rule. rule.interface < 2 ^ 8) }
    ensures number { IfSome result (λ rule. rule.number < 2 ^ 16) }
{
    rule_on(packet.interface, packet_as_seen(policy, packet), verdict)
}
