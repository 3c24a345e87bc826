//! What is told of a written policy: the plain one, or what is wrong.
ghost use Rattle.std.specs.Prelude.{◌≢◌, IfNone, IfOk, IfSome, map};
ghost use Rattle.acl_policy.specs.Policies.{IsPolicyText, PolicyFacts};
ghost use Rattle.policy_expand.specs.Sources.{source_facts};
ghost use Rattle.policy_expand.specs.ToldExpansions.{IsToldOf};

use crate::expansion::{Expansion, expanded};
use crate::file_lines::SourceLine;
use crate::written_fault::{LineFault, WrongLine};
use policy_check::check_policy;
use std::alloc::{AllocError, Global};
use std::fmt::Display;

/// At most how many bytes of a word are shown.
const MOST_SHOWN: usize = 80;

/// A plain policy, or what is wrong with the written one, line by line.
#[derive(Drop)]
pub enum Told {
    Plain(Vec<u8>),
    Faults(String),
}

// Adds a word to what is told, with each byte that isn't seen as its number.
fn push_shown_word(alloc: Global, out: &mut String, word: &[u8]) -> Result<(), AllocError> {
    for byte in &word[..word.len().min(MOST_SHOWN)] {
        if *byte > 32 && *byte < 127 {
            out.push(char::from(*byte))?;
        } else {
            out.push_str(format!(in alloc; "\\x{:02x}", *byte)?.as_str())?;
        }
    }
    if word.len() > MOST_SHOWN {
        out.push_str("..")?;
    }
    Ok(())
}

// Adds what is the matter with a line, with its place.
fn push_told_fault<R: Display>(
    alloc: Global,
    out: &mut String,
    line: &SourceLine<'_>,
    word: &[u8],
    reason: &R,
) -> Result<(), AllocError> {
    let file = line.file.as_bytes().escape_ascii();
    out.push_str(format!(in alloc; "racl: {file}:{}: ", line.number)?.as_str())?;
    if !word.is_empty() {
        out.push('`')?;
        push_shown_word(alloc, out, word)?;
        out.push_str("` ")?;
    }
    out.push_str(format!(in alloc; "{reason}\n")?.as_str())
}

/// What is told of a written line that is wrong. An `Err` says that memory ran out.
pub fn told_fault(alloc: Global, found: WrongLine<'_>) -> Result<String, AllocError>
    ensures { IfOk result (λ _. found.entry.fault ≢ LineFault.Memory) }
{
    let LineFault::Wrong(reason, word) = found.fault else {
        return Err(AllocError);
    };
    let mut out = String::new(alloc);
    push_told_fault(alloc, &mut out, &found.line, word, &reason)?;
    Ok(out)
}

// What is told of the plain lines that are wrong: of each written line the first reason. None: they are a policy.
fn told_complaints(
    alloc: Global,
    lines: &[SourceLine<'_>],
    expansion: &Expansion,
) -> Result<Option<String>, AllocError>
    ensures none { IfOk result (λ told. IfNone told ((policy : PolicyFacts) × IsPolicyText expansion.now.text.items policy)) }
    ensures some { IfOk result (λ told. IfSome told (λ _. (policy : PolicyFacts) → IsPolicyText expansion.now.text.items policy → ⊥)) }
{
    let checked = check_policy(alloc, expansion.text.as_slice())?;
    if checked.complaints.is_empty() {
        return Ok(None);
    }
    let mut out = String::new(alloc);
    let mut last = None;
    for told in &checked.complaints {
        let plain = usize::try_from(told.line).unwrap_or(0).saturating_sub(1);
        let place = expansion.origins.get(plain).copied();
        if place == last {
            continue;
        }
        last = place;
        if let Some(place) = place
            && let Some(line) = lines.get(place)
        {
            push_told_fault(alloc, &mut out, line, told.word, &told.reason)?;
        }
    }
    Ok(Some(out))
}

/// Tells the plain policy that lines stand for, or what is wrong with them. An `Err` says that memory ran out.
pub fn tell_expansion(alloc: Global, lines: &[SourceLine<'_>]) -> Result<Told, AllocError>
    ensures { IfOk result (IsToldOf (map source_facts lines.now)) }
{
    let expansion = match expanded(alloc, lines) {
        Ok(expansion) => expansion,
        Err(found) => return Ok(Told::Faults(told_fault(alloc, found)?)),
    };
    match told_complaints(alloc, lines, &expansion)? {
        Some(told) => Ok(Told::Faults(told)),
        None => Ok(Told::Plain(expansion.text)),
    }
}
