//! The first three words of a rule: direction, action and family.
ghost use Rattle.std.specs.Prelude.{IfErr, IfOk};
ghost use Rattle.acl_policy.specs.Words.{words_of};
ghost use Rattle.policy_check.specs.Reasons.{HasHead, IsHeadReason};

use crate::reason::Reason;
use crate::word_finding::{Finding, missing, of};
use crate::word_readers::{
    read_action_word, read_direction_word, read_family_word, read_next_word,
};
use packet_view::Family;

/// The family of a rule, and the text after its head; what is wrong with the words of the head, where that is so.
pub fn head(text: &[u8]) -> Result<(Family, &[u8]), Finding<'_>>
    ensures right { IfOk result (λ r. HasHead (words_of text.now) r.0 (words_of r.1.now)) }
    ensures wrong { IfErr result (λ found. IsHeadReason (words_of text.now) found.reason found.word.now) }
{
    let Some((first, text)) = read_next_word(text) else {
        return Err(missing());
    };
    let Some(_) = read_direction_word(first) else {
        return Err(of(Reason::NoStart, first));
    };
    let Some((second, text)) = read_next_word(text) else {
        return Err(missing());
    };
    let Some(_) = read_action_word(second) else {
        return Err(of(Reason::NoAction, second));
    };
    let Some((third, text)) = read_next_word(text) else {
        return Err(missing());
    };
    match read_family_word(third) {
        Some(family) => Ok((family, text)),
        None => Err(of(Reason::NoFamily, third)),
    }
}
