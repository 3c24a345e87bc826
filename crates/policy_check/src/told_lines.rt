//! What a check tells, line by line.
ghost use Rattle.std.specs.Prelude.{◌↔◌, ◌<◌, ◌^◌, IfOk, IfSome, IsTrue};
ghost use Rattle.acl_policy.specs.Policies.{IsPolicyText, PolicyFacts};

use crate::kinds_of_other_texts::kind_of_other;
use crate::policy_checking::{Checked, Complaint, check_policy};
use crate::remark_kinds::Remark;
use crate::remarks_on_policy::remarks_on;
use acl_policy::Policy;
use packet_view::Direction;
use racl_views::{RuleName, line_of, rule_table_by_place, text_at};
use std::alloc::{AllocError, Global};

/// The lines that tell what a check found, and whether the text is a policy.
#[derive(Drop)]
pub struct Told {
    pub text: Vec<u8>,
    pub is_policy: bool,
}

/// At most how many bytes of a word are shown.
const MOST_SHOWN: usize = 80;

// Adds a piece to the text that a check tells.
fn push_told_text(out: &mut Vec<u8>, text: &str) -> Result<(), AllocError> {
    out.extend_from_slice(text.as_bytes())?;
    Ok(())
}

// Adds the word of a complaint to the text that a check tells, with each byte that isn't a sign of ASCII as its number,
// so that it is seen.
fn push_told_word(alloc: Global, out: &mut Vec<u8>, word: &[u8]) -> Result<(), AllocError> {
    for byte in &word[..word.len().min(MOST_SHOWN)] {
        if *byte > 32 && *byte < 127 {
            out.push(*byte)?;
        } else {
            push_told_text(out, format!(in alloc; "\\x{:02x}", *byte)?.as_str())?;
        }
    }
    if word.len() > MOST_SHOWN {
        push_told_text(out, "..")?;
    }
    Ok(())
}

// Adds the line of a complaint to the text that a check tells.
fn push_told_complaint(
    alloc: Global,
    out: &mut Vec<u8>,
    told: &Complaint<'_>,
) -> Result<(), AllocError> {
    push_told_text(out, format!(in alloc; "line {}", told.line)?.as_str())?;
    if !told.word.is_empty() {
        push_told_text(out, ": `")?;
        push_told_word(alloc, out, told.word)?;
        push_told_text(out, "`")?;
    }
    push_told_text(out, format!(in alloc; " {}\n", told.reason)?.as_str())
}

// A rule that a remark is of.
fn remarked_rule(interface: u8, direction: Direction, number: u64) -> Option<RuleName>
    ensures interface { IfSome result (λ rule. rule.interface < 2 ^ 8) }
    ensures number { IfSome result (λ rule. rule.number < 2 ^ 16) }
{
    if number > 65_535 {
        return None;
    }
    Some(RuleName {
        interface,
        direction,
        number,
    })
}

// The rule that a remark is of, where it is of one.
fn rule_of_remark(remark: &Remark) -> Option<RuleName>
    ensures interface { IfSome result (λ rule. rule.interface < 2 ^ 8) }
    ensures number { IfSome result (λ rule. rule.number < 2 ^ 16) }
{
    match *remark {
        Remark::NoRule | Remark::NoMac(_) => None,
        Remark::Shadowed(interface, direction, number, _)
        | Remark::ShadowedTogether(interface, direction, number, _)
        | Remark::NotKnown(interface, direction, number)
        | Remark::SourceBits(interface, direction, number)
        | Remark::DestBits(interface, direction, number)
        | Remark::Mask(interface, direction, number, _)
        | Remark::UnmatchedFlags(interface, direction, number) => {
            remarked_rule(interface, direction, number)
        }
    }
}

// The rule that takes all packets of the one that a remark is of, where it tells of one alone.
fn rule_that_takes_all(remark: &Remark) -> Option<RuleName>
    ensures interface { IfSome result (λ rule. rule.interface < 2 ^ 8) }
    ensures number { IfSome result (λ rule. rule.number < 2 ^ 16) }
{
    match *remark {
        Remark::Shadowed(interface, direction, _, other) => {
            remarked_rule(interface, direction, other)
        }
        Remark::ShadowedTogether(interface, direction, _, ref takers) => {
            match takers.places.as_slice() {
                [place] => remarked_rule(interface, direction, (*place as u64).saturating_add(1)),
                _ => None,
            }
        }
        _ => None,
    }
}

// Adds a rule to the text that a check tells: its line, which is 0 where there is none, and what stands there.
fn push_told_rule(
    alloc: Global,
    out: &mut Vec<u8>,
    line: u64,
    text: &str,
) -> Result<(), AllocError> {
    if line == 0 {
        return Ok(());
    }
    push_told_text(out, format!(in alloc; " | line {line} {text}")?.as_str())
}

// How many rules a policy has, which the text of a check tells in its last line.
fn told_rule_count(policy: &Policy) -> usize {
    let mut count: usize = 0;
    for section in &policy.sections {
        count = count
            .saturating_add(section.inbound.len())
            .saturating_add(section.outbound.len());
    }
    count
}

// Adds the lines that are told of a policy that this text says: the remarks on it, and then how many rules and sections it has.
fn push_told_policy(
    alloc: Global,
    out: &mut Vec<u8>,
    text: &[u8],
    policy: &Policy,
) -> Result<(), AllocError> {
    let remarks = remarks_on(alloc, policy)?;
    let table = rule_table_by_place(alloc, text)?;
    for remark in &remarks {
        push_told_text(out, format!(in alloc; "remark: {remark}")?.as_str())?;
        let line = line_of(&table.lines, rule_of_remark(remark));
        push_told_rule(alloc, out, line, text_at(&table.texts, line))?;
        let line = line_of(&table.lines, rule_that_takes_all(remark));
        push_told_rule(alloc, out, line, text_at(&table.texts, line))?;
        push_told_text(out, "\n")?;
    }
    let rules = told_rule_count(policy);
    let sections = policy.sections.len();
    push_told_text(
        out,
        format!(in alloc; "policy: rules {rules} sections {sections}\n")?.as_str(),
    )
}

// Adds what the check of this text tells where there is no policy: each complaint, what the text is where that is known, and
// then how many lines are wrong.
fn push_told_complaints(
    alloc: Global,
    out: &mut Vec<u8>,
    text: &[u8],
    checked: &Checked<'_>,
) -> Result<(), AllocError> {
    for told in &checked.complaints {
        push_told_complaint(alloc, out, told)?;
    }
    if let Some(kind) = kind_of_other(text) {
        push_told_text(out, format!(in alloc; "remark: {kind}\n")?.as_str())?;
    }
    let lines = checked.complaints.len();
    push_told_text(
        out,
        format!(in alloc; "no policy: wrong lines {lines}\n")?.as_str(),
    )
}

/// Tells line by line what a check of a policy's text found: what is wrong, or else what is remarked. An `Err` says
/// that memory ran out.
pub fn tell(alloc: Global, text: &[u8]) -> Result<Told, AllocError>
    ensures { IfOk result (λ told. IsTrue told.is_policy ↔ ((policy : PolicyFacts) × IsPolicyText text.now policy)) }
{
    let checked = check_policy(alloc, text)?;
    let is_policy = checked.complaints.is_empty();
    let mut out = Vec::new(alloc);
    if is_policy {
        push_told_policy(alloc, &mut out, text, &checked.policy)?;
    } else {
        push_told_complaints(alloc, &mut out, text, &checked)?;
    }
    Ok(Told {
        text: out,
        is_policy,
    })
}
