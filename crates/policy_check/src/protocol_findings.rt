//! What follows the prefixes of a rule: a protocol and its parts.
ghost use Rattle.std.specs.Prelude.{◌≡◌, ◌∷◌, List, ℕ, IfErr};
ghost use Rattle.acl_policy.specs.Traffic.{OfIcmp, OfTcp, OfUdp, parts_of};
ghost use Rattle.acl_policy.specs.Words.{words_of};
ghost use Rattle.policy_check.specs.Reasons.{IsPartReason, IsTrafficReason};

use crate::port_and_flag_findings::{after_both, after_flags};
use crate::reason::Reason;
use crate::word_finding::{Finding, of};
use crate::word_readers::{read_next_word, read_protocol_word};
use acl_policy::icmp_number;
use packet_view::Family;

const TCP: u8 = 6;

const UDP: u8 = 17;

// What is the matter with a word that is left behind a rule's protocol and its parts.
fn left_after_protocol(text: &[u8], reason: Reason) -> Result<(), Finding<'_>>
    ensures reason { IfErr result (λ found. found.reason ≡ reason) }
    ensures word { IfErr result (λ found. (rest : List (List ℕ)) × (words_of text.now ≡ found.word.now ∷ rest)) }
{
    match read_next_word(text) {
        Some((word, _)) => Err(of(reason, word)),
        None => Ok(()),
    }
}

// What is the matter with the parts of a rule for TCP.
fn tcp_parts(text: &[u8]) -> Result<(), Finding<'_>>
    ensures { IfErr result (λ found. IsPartReason OfTcp (words_of text.now) found.reason found.word.now) }
{
    match after_both(text, b"sport", b"dport", u16::MAX) {
        Ok(text) => match after_flags(text) {
            Ok(text) => left_after_protocol(text, Reason::NoTcpPart),
            Err(found) => Err(found),
        },
        Err(found) => Err(found),
    }
}

// What is the matter with the parts of a rule for UDP.
fn udp_parts(text: &[u8]) -> Result<(), Finding<'_>>
    ensures { IfErr result (λ found. IsPartReason OfUdp (words_of text.now) found.reason found.word.now) }
{
    match after_both(text, b"sport", b"dport", u16::MAX) {
        Ok(text) => left_after_protocol(text, Reason::NoUdpPart),
        Err(found) => Err(found),
    }
}

// What is the matter with the parts of a rule for ICMP.
fn icmp_parts(text: &[u8]) -> Result<(), Finding<'_>>
    ensures { IfErr result (λ found. IsPartReason OfIcmp (words_of text.now) found.reason found.word.now) }
{
    match after_both(text, b"type", b"code", u16::from(u8::MAX)) {
        Ok(text) => left_after_protocol(text, Reason::NoIcmpPart),
        Err(found) => Err(found),
    }
}

// What is the matter with the parts of a rule for this protocol.
fn parts(family: Family, proto: u8, text: &[u8]) -> Result<(), Finding<'_>>
    ensures { IfErr result (λ found. IsPartReason (parts_of family proto) (words_of text.now) found.reason found.word.now) }
{
    if proto == TCP {
        tcp_parts(text)
    } else if proto == UDP {
        udp_parts(text)
    } else if proto == icmp_number(family) {
        icmp_parts(text)
    } else {
        left_after_protocol(text, Reason::NoParts)
    }
}

/// What is wrong with a protocol and its parts, where that is so.
pub fn traffic(family: Family, text: &[u8]) -> Result<(), Finding<'_>>
    ensures { IfErr result (λ found. IsTrafficReason family (words_of text.now) found.reason found.word.now) }
{
    let Some((word, rest)) = read_next_word(text) else {
        return Ok(());
    };
    match read_protocol_word(family, word) {
        Some(proto) => parts(family, proto, rest),
        None => Err(of(Reason::NoProtocol, word)),
    }
}
