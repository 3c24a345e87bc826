//! What a line of a file of expectations says.
ghost use Rattle.std.specs.Prelude.{◌≡◌};
ghost use Rattle.acl_policy.specs.Words.{words_of};
ghost use Rattle.compared_verdicts.specs.Expectations;

use crate::expectation::{Expected, Line, Total, Wanted};
use crate::expectation_fault::ExpectationReason;
use crate::numbers::{number_of, span_of};
use crate::wanted_words::wanted_of;
use acl_policy::{before_comment, is_end, next_word};

// The total that a word of a line names.
fn total_of(word: &[u8]) -> Option<Total>
    ensures { result ≡ Expectations.total_in word.now }
{
    if word == b"packets".as_slice() {
        Some(Total::Packets)
    } else if word == b"pass".as_slice() {
        Some(Total::Passed)
    } else if word == b"drop".as_slice() {
        Some(Total::Dropped)
    } else {
        None
    }
}

// What a line says whose first word is a total.
#[tactic(auto, unfolding(crate::specs::Expectations::count_line))]
fn count_line(total: Total, text: &[u8]) -> Result<Line, ExpectationReason>
    ensures { result ≡ Expectations.count_line total (words_of text.now) }
{
    let Some((digits, text)) = next_word(text) else {
        return Err(ExpectationReason::NoCount);
    };
    if !is_end(text) {
        return Err(ExpectationReason::NoCount);
    }
    match number_of(digits) {
        Some(number) => Ok(Line::Expects(Expected::InAll(total, number))),
        None => Err(ExpectationReason::NoCount),
    }
}

// What a line says of packets with these numbers, where their verdicts are wanted so.
fn verdict_line(span: Option<(u64, u64)>, wanted: Option<Wanted>) -> Result<Line, ExpectationReason>
    ensures { result ≡ Expectations.verdict_line span wanted }
{
    let Some((first, last)) = span else {
        return Err(ExpectationReason::NoNumbers);
    };
    match wanted {
        Some(wanted) => Ok(Line::Expects(Expected::Verdicts(first, last, wanted))),
        None => Err(ExpectationReason::NoVerdict),
    }
}

/// What a line says. An error says why it is wrong.
#[tactic(auto, unfolding(crate::specs::Expectations::line_in, crate::specs::Expectations::said_in))]
pub fn line_of(line: &[u8]) -> Result<Line, ExpectationReason>
    ensures { result ≡ Expectations.line_in line.now }
{
    let Some((word, rest)) = next_word(before_comment(line)) else {
        return Ok(Line::Blank);
    };
    match total_of(word) {
        Some(total) => count_line(total, rest),
        None => verdict_line(span_of(word), wanted_of(rest)),
    }
}
