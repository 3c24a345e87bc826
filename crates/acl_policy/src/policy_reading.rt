//! The policy that a text says.
ghost use Rattle.std.specs.Prelude.{◌≡◌, ◌≢◌, ◌≤◌, ◌⊎◌, [], IfOk, IfErr, MatchResult, OnOk, length, map};
ghost use Rattle.std.specs.Str.{IsUtf8};
ghost use Rattle.std.specs.Str.Lines.{lines};
ghost use Rattle.acl_policy.specs.Policies.{IsPolicyFault, IsPolicyText, PolicyFacts, SayPolicy, empty_section, numbers_of, policy_facts};
ghost use Rattle.acl_policy.specs.inner.Reading.Lines.{line_in};
ghost use Rattle.acl_policy.specs.inner.Reading.Policies.{Fails, LinesFail, draft_facts, is_among, line_added, policy_so_far, rule_added};
ghost use Rattle.acl_policy.specs.Rules.{most_rules, rule_facts};

use crate::interface_sections::{empty, has_section};
use crate::policy::{Policy, PolicyFault};
use crate::policy_draft::Draft;
use crate::policy_line::{Line, line_of};
use crate::rule::Rule;
use packet_view::Direction;
use std::alloc::Global;
use std::mem;

/// The greatest number of rules of one direction.
const MOST_RULES: usize = 4096;

/// Adds a rule that was read of a policy to those of its direction. `number` is its line.
#[tactic(auto, unfolding(crate::specs::inner::Reading::Policies::rule_added))]
fn add_read_rule(rules: &mut Vec<Rule>, rule: Rule, number: u64) -> Result<(), PolicyFault>
    ensures ok { OnOk result (rule_added number (map rule_facts rules.old.items) (rule_facts rule)
        ≡ Ok (map rule_facts rules.new.items)) }
    ensures fault { IfErr result
        (Fails (rule_added number (map rule_facts rules.old.items) (rule_facts rule))) }
    ensures few { length rules.old.items ≤ most_rules → length rules.new.items ≤ most_rules }
    ensures stays { IfErr result (λ fault. fault ≢ PolicyFault.Memory → rules.new.items ≡ rules.old.items) }
{
    if rules.len() >= MOST_RULES {
        return Err(PolicyFault::TooMany(number));
    }
    rules.push(rule)?;
    Ok(())
}

// While a policy is read: whether a section of it was begun for this interface.
fn reading_has_section(draft: &Draft, interface: u8) -> bool
    ensures { result ≡ is_among interface (numbers_of (policy_so_far (draft_facts draft.now)).sections) }
{
    has_section(draft.done.as_slice(), interface) || interface == draft.current.interface
}

/// Reads a line: adds what it says to a policy of the lines before it. `number` is the line's. Where the line is at
/// fault, the policy stays as it was; where memory ran out, it is of no use.
pub fn read_policy_line(
    alloc: Global,
    draft: &mut Draft,
    line: &[u8],
    number: u64,
) -> Result<(), PolicyFault>
    ensures ok { OnOk result (line_added number (draft_facts draft.old) (line_in line.now)
        ≡ Ok (draft_facts draft.new)) }
    ensures fault { IfErr result (Fails (line_added number (draft_facts draft.old) (line_in line.now))) }
    ensures stays { IfErr result (λ fault. fault ≢ PolicyFault.Memory → draft_facts draft.new ≡ draft_facts draft.old) }
{
    match line_of(line) {
        None => return Err(PolicyFault::BadLine(number)),
        Some(Line::Blank) => {}
        Some(Line::Begins(interface)) => {
            if reading_has_section(draft, interface) {
                return Err(PolicyFault::BadLine(number));
            }
            let current = mem::replace(&mut draft.current, empty(alloc, interface));
            draft.done.push(current)?;
        }
        Some(Line::Own(mac)) => {
            if draft.current.own.is_some() {
                return Err(PolicyFault::BadLine(number));
            }
            draft.current.own = Some(mac);
        }
        Some(Line::Ruled(Direction::Inbound, rule)) => {
            add_read_rule(&mut draft.current.inbound, rule, number)?;
        }
        Some(Line::Ruled(Direction::Outbound, rule)) => {
            add_read_rule(&mut draft.current.outbound, rule, number)?;
        }
    }
    Ok(())
}

/// With what the reading of a policy begins: no line was read.
pub fn empty_draft(alloc: Global) -> Draft
    ensures { draft_facts result ≡ record { done = []; current = empty_section 0 } }
{
    Draft {
        done: Vec::new(alloc),
        current: empty(alloc, 0),
    }
}

fn read_lines(alloc: Global, text: &str) -> Result<Policy, PolicyFault>
    ensures ok { IfOk result (λ policy. SayPolicy (lines text.now) (policy_facts policy)) }
    ensures fault { IfErr result (LinesFail (lines text.now)) }
{
    let mut draft = empty_draft(alloc);
    let mut number = 0;
    for line in text.lines() {
        number += 1;
        read_policy_line(alloc, &mut draft, line.as_bytes(), number)?;
    }
    let Draft {
        done: mut sections,
        current,
    } = draft;
    sections.push(current)?;
    Ok(Policy { sections })
}

/// Reads a policy from its text.
///
/// An `Err` other than `Memory` names the first fault: bytes that aren't UTF-8 anywhere in the text,
/// and else the first line that is wrong or one rule too many.
pub fn read_policy(alloc: Global, text: &[u8]) -> Result<Policy, PolicyFault>
    ensures ok { IfOk result (λ policy. IsPolicyText text.now (policy_facts policy)) }
    ensures fault { IfErr result (λ fault. fault ≢ PolicyFault.Memory → IsPolicyFault text.now fault) }

    // Memory is asked for sections and rules alone, so no other text is refused for want of it.
    ensures memory { IfErr result (λ fault. fault ≡ PolicyFault.Memory → IsUtf8 text.now) }

    // A text of a policy is refused only where memory ran out, and a text with a fault for that fault
    // or that memory ran out.
    ensures accepts { (policy : PolicyFacts) → IsPolicyText text.now policy
        → MatchResult result (λ read. policy_facts read ≡ policy) (λ fault. fault ≡ PolicyFault.Memory) }
    ensures refuses { (fault : PolicyFault) → IsPolicyFault text.now fault
        → MatchResult result (λ _. ⊥) (λ found. (found ≡ fault) ⊎ (found ≡ PolicyFault.Memory)) }
{
    match str::from_utf8(text) {
        Ok(text) => read_lines(alloc, text),
        Err(_) => Err(PolicyFault::NotUtf8),
    }
}
