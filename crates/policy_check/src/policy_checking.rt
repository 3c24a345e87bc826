//! The check of a policy's text.
ghost use Rattle.std.specs.Prelude.{◌≡◌, ◌≢◌, false, ◌+◌, ◌==◌, ◌∷◌, [], IfOk, filter, length, map};
ghost use Rattle.std.specs.Str.Lines.{lines};
ghost use Rattle.acl_policy.specs.Policies.{SayPolicy, policy_facts};
ghost use Rattle.acl_policy.specs.declared.policy.PolicyFault.TheVariants.{Memory};
ghost use Rattle.acl_policy.specs.inner.Reading.Policies.{draft_facts, policy_so_far};
ghost use Rattle.policy_check.specs.Complaints.{AreComplaints, IsChecked, complaint_facts};
ghost use Rattle.policy_check.specs.declared.reason.Reason.TheVariants.{NotUtf8};

use crate::line_finding::explained;
use crate::reason::Reason;
use acl_policy::{Draft, Policy, PolicyFault, empty_draft, read_policy_line};
use std::alloc::{AllocError, Global};

/// What is the matter with a line.
#[derive(Clone, Copy)]
pub struct Complaint<'a> {
    /// The number of the line, from 1.
    pub line: u64,
    pub reason: Reason,
    /// The word of which the reason is said, and nothing where it is said of none.
    pub word: &'a [u8],
}

/// What a check found.
#[derive(Drop)]
pub struct Checked<'a> {
    /// The wrong lines, in their order.
    pub complaints: Vec<Complaint<'a>>,
    /// What the other lines say.
    pub policy: Policy,
}

// Whether a line couldn't be added to the policy since memory ran out, which ends the check of its text.
fn is_memory(fault: PolicyFault) -> bool
    ensures { result ≡ false → fault ≢ Memory }
{
    matches!(fault, PolicyFault::Memory)
}

// The policy that the draft of a check comes to at its end.
fn checked_policy(draft: Draft) -> Result<Policy, AllocError>
    ensures { IfOk result (λ policy. policy_facts policy ≡ policy_so_far (draft_facts draft)) }
{
    let Draft {
        done: mut sections,
        current,
    } = draft;
    sections.push(current)?;
    Ok(Policy { sections })
}

// Checks the lines of a policy's text in their order: wrong ones are complained of, and the others make the policy.
fn check_lines(alloc: Global, text: &str) -> Result<Checked<'_>, AllocError>
    ensures { IfOk result (λ c. AreComplaints (lines text.now) (map complaint_facts c.complaints.items) (policy_facts c.policy)) }
{
    let mut complaints = Vec::new(alloc);
    let mut draft = empty_draft(alloc);
    let mut number = 0;
    for line in text.lines() {
        number += 1;
        let line = line.as_bytes();
        match read_policy_line(alloc, &mut draft, line, number) {
            Ok(()) => {}
            Err(fault) if is_memory(fault) => return Err(AllocError),
            Err(_) => {
                let found = explained(line);
                complaints.push(Complaint {
                    line: number,
                    reason: found.reason,
                    word: found.word,
                })?;
            }
        }
    }
    let policy = checked_policy(draft)?;
    Ok(Checked { complaints, policy })
}

/// The check of a policy's text: the number of the line behind these bytes, in which it stops being UTF-8 or a policy.
pub fn line_in_checked_policy(bytes: &[u8]) -> u64
    ensures { result ≡ length (filter (λ b. b == 10) bytes.now) + 1 }
{
    let mut count = 0;
    for i in 0..bytes.len() {
        if bytes[i] == b'\n' {
            count += 1;
        }
    }
    count + 1
}

// What the check finds of a policy's text that isn't UTF-8: one complaint, of the line with this number.
fn broken<'a>(alloc: Global, line: u64) -> Result<Checked<'a>, AllocError>
    ensures complaint { IfOk result (λ c. map complaint_facts c.complaints.items
        ≡ record { line = line; reason = NotUtf8; word = [] } ∷ []) }
    ensures policy { IfOk result (λ c. SayPolicy [] (policy_facts c.policy)) }
{
    let mut complaints = Vec::new(alloc);
    complaints.push(Complaint {
        line,
        reason: Reason::NotUtf8,
        word: b"",
    })?;
    let policy = checked_policy(empty_draft(alloc))?;
    Ok(Checked { complaints, policy })
}

/// Checks a policy's text. An `Err` says that memory ran out.
pub fn check_policy(alloc: Global, text: &[u8]) -> Result<Checked<'_>, AllocError>
    ensures { IfOk result (λ c. IsChecked text.now (map complaint_facts c.complaints.items) (policy_facts c.policy)) }
{
    let error = match str::from_utf8(text) {
        Ok(text) => return check_lines(alloc, text),
        Err(error) => error,
    };
    broken(alloc, line_in_checked_policy(&text[..error.valid_up_to()]))
}
