//! Why a policy in a file is wrong, said of its line.
ghost use Rattle.std.specs.Prelude.{◌≡◌, IfOk};
ghost use Rattle.racl_report.specs.Statuses.{status_of, status_of_fault};

use crate::say_and_answer_status::say_ending;
use policy_check::tell;
use racl_io::{Fault, Totals};
use racl_report::{ending, shown_name, status};
use std::alloc::Global;
use std::io;
use std::io::Eprint;

/// The name of a policy's file, and its text.
#[derive(Clone, Copy)]
pub struct NamedPolicy<'a> {
    pub name: &'a str,
    pub text: &'a [u8],
}

// Whether a fault is of a policy.
fn is_of_policy(fault: Fault) -> bool {
    matches!(
        fault,
        Fault::NotUtf8 | Fault::BadLine(_) | Fault::TooMany(_)
    )
}

// Says that a policy is wrong: in which line, and why, unless memory for the reason runs out; and what tells more.
fn say_wrong_policy(
    rt: &impl Eprint,
    alloc: Global,
    policy: NamedPolicy<'_>,
    fault: Fault,
) -> io::Result<()> {
    let shown = shown_name(policy.name);
    if let Ok(told) = tell(alloc, policy.text)
        && let Ok(lines) = str::from_utf8(told.text.as_slice())
        && let Some(line) = lines.lines().next()
    {
        return rt.eprintln(format_args!("racl: {shown}: {line}; see racl check"));
    }
    rt.eprintln(format_args!("racl: {shown}: {fault}; see racl check"))
}

/// Says how a run on files ended, a wrong policy by its line; and answers the status. No clause says what standard error gets:
/// `tests/run` looks at it.
pub fn say_ended(
    rt: &impl Eprint,
    alloc: Global,
    policy: NamedPolicy<'_>,
    outcome: &Result<Totals, Fault>,
) -> io::Result<u8>
    ensures { IfOk result (λ status. status ≡ status_of outcome.now) }
{
    if let Err(fault) = outcome
        && is_of_policy(*fault)
    {
        say_wrong_policy(rt, alloc, policy, *fault)?;
        return Ok(status(outcome));
    }
    say_ending(rt, &ending(outcome))
}

/// Says which fault a policy in a file has, and answers the status.
pub fn say_policy_fault(
    system: &impl Eprint,
    alloc: Global,
    policy: NamedPolicy<'_>,
    fault: Fault,
) -> io::Result<u8>
    ensures { IfOk result (λ status. status ≡ status_of_fault fault) }
{
    say_ended(system, alloc, policy, &Err(fault))
}
