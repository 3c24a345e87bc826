//! Numbers in lines of expectations.
ghost use Rattle.std.specs.Prelude.{◌≡◌};
ghost use Rattle.compared_verdicts.specs.Expectations;

use acl_policy::cut_at;

/// The number that one to eighteen decimal digits spell. `None`: they don't.
#[tactic(auto, unfolding(crate::specs::Expectations::number_in))]
pub fn number_of(word: &[u8]) -> Option<u64>
    ensures { result ≡ Expectations.number_in word.now }
{
    if word.is_empty() || word.len() > 18 {
        return None;
    }
    let mut number = 0;
    for byte in word {
        number = number * 10 + u64::from(char::from(*byte).to_digit(10)?);
    }
    Some(number)
}

// The numbers of a line between these two.
fn span_between(first: Option<u64>, last: Option<u64>) -> Option<(u64, u64)>
    ensures { result ≡ Expectations.span_between first last }
{
    let Some(first) = first else {
        return None;
    };
    let Some(last) = last else {
        return None;
    };
    if 1 <= first && first <= last {
        Some((first, last))
    } else {
        None
    }
}

/// The numbers of packets that a line names: one, or a first and a last one with a hyphen between them.
#[tactic(auto, unfolding(crate::specs::Expectations::span_in, acl_policy::specs::inner::WordReading::Numerals::cut_in))]
pub fn span_of(word: &[u8]) -> Option<(u64, u64)>
    ensures { result ≡ Expectations.span_in word.now }
{
    match cut_at(word, b'-') {
        Some((first, last)) => span_between(number_of(first), number_of(last)),
        None => span_between(number_of(word), number_of(word)),
    }
}

/// The number of a rule that a line names, at most 65535.
#[tactic(auto, unfolding(crate::specs::Expectations::rule_in))]
pub fn rule_number_of(word: &[u8]) -> Option<u16>
    ensures { result ≡ Expectations.rule_in word.now }
{
    let Some(number) = number_of(word) else {
        return None;
    };
    if number <= 65_535 {
        Some(number as u16)
    } else {
        None
    }
}
