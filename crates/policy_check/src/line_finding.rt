//! What is wrong with a line.
ghost use Rattle.std.specs.Prelude.{IfErr};
ghost use Rattle.acl_policy.specs.Lines.{IsInterface};
ghost use Rattle.acl_policy.specs.inner.Reading.Lines.{line_in};
ghost use Rattle.acl_policy.specs.Prefixes.{IsMac};
ghost use Rattle.acl_policy.specs.Words.{words_of};
ghost use Rattle.policy_check.specs.Complaints.{line_words};
ghost use Rattle.policy_check.specs.Reasons.{IsFirst, IsFormReason, IsPairReason, IsRuleReason, IsWordsReason};
ghost use Rattle.policy_check.specs.declared.reason.Reason.TheVariants.{NoInterface, NoMac};
ghost use Rattle.policy_check.specs.inner.Explained.{Explains};

use crate::prefix_findings::ends;
use crate::protocol_findings::traffic;
use crate::reason::Reason;
use crate::rule_head_findings::head;
use crate::unseen_characters::unseen;
use crate::word_finding::{Finding, missing, of};
use crate::word_readers::{is_read_word, read_interface_word, read_mac_word, read_next_word};
use acl_policy::{Line, before_comment, line_of};

// What is wrong with a line that begins with `mac`, by the words after it.
fn own_line(text: &[u8]) -> Result<(), Finding<'_>>
    ensures { IfErr result (λ found. IsPairReason NoMac IsMac (words_of text.now) found.reason found.word.now) }
{
    let Some((word, rest)) = read_next_word(text) else {
        return Err(missing());
    };
    if read_mac_word(word).is_none() {
        return Err(of(Reason::NoMac, word));
    }
    match read_next_word(rest) {
        Some((extra, _)) => Err(of(Reason::Extra, extra)),
        None => Ok(()),
    }
}

// What is wrong with a line that begins with `interface`, by the words after it.
fn heading(text: &[u8]) -> Result<(), Finding<'_>>
    ensures { IfErr result (λ found. IsPairReason NoInterface IsInterface (words_of text.now) found.reason found.word.now) }
{
    let Some((word, rest)) = read_next_word(text) else {
        return Err(missing());
    };
    if read_interface_word(word).is_none() {
        return Err(of(Reason::NoInterface, word));
    }
    match read_next_word(rest) {
        Some((extra, _)) => Err(of(Reason::Extra, extra)),
        None => Ok(()),
    }
}

// What is wrong with a line that is to be a rule: the first finding in its head, its prefixes and its protocol.
fn rule_line(text: &[u8]) -> Result<(), Finding<'_>>
    ensures { IfErr result (λ found. IsRuleReason (words_of text.now) found.reason found.word.now) }
{
    let (family, text) = head(text)?;
    let text = ends(family, text)?;
    traffic(family, text)
}

// What is wrong with the words of a line, in the form that the first of them begins: `mac`, `interface` or a rule.
fn words_of_line(text: &[u8]) -> Result<(), Finding<'_>>
    ensures { IfErr result (λ found. IsWordsReason (words_of text.now) found.reason found.word.now) }
{
    let Some((word, rest)) = read_next_word(text) else {
        return Ok(());
    };
    if is_read_word(word, b"mac") {
        own_line(rest)
    } else if is_read_word(word, b"interface") {
        heading(rest)
    } else {
        rule_line(text)
    }
}

// The first word of a line, of which a finding on the whole line is said, and nothing where it has none.
fn first_word(line: &[u8]) -> &[u8]
    ensures { IsFirst (line_words line.now) result.now }
{
    match read_next_word(before_comment(line)) {
        Some((word, _)) => word,
        None => b"",
    }
}

// What is wrong with a line of no form.
fn form_finding(line: &[u8]) -> Finding<'_>
    ensures { IsFormReason (line_words line.now) result.reason result.word.now }
{
    let text = before_comment(line);
    if let Some(found) = unseen(text) {
        return found;
    }
    match words_of_line(text) {
        Err(found) => found,
        Ok(()) => of(Reason::NoForm, first_word(line)),
    }
}

/// What is wrong with a line that no policy has: what it says may not stand there, or it has no form.
pub fn explained(line: &[u8]) -> Finding<'_>
    ensures { Explains line.now (line_in line.now) result.reason result.word.now }
{
    match line_of(line) {
        Some(Line::Begins(_)) => of(Reason::SecondSection, first_word(line)),
        Some(Line::Own(_)) => of(Reason::SecondMac, first_word(line)),
        Some(Line::Ruled(_, _)) => of(Reason::Surplus, first_word(line)),
        Some(Line::Blank) | None => form_finding(line),
    }
}
