//! What an input comes from: standard input, or the file of a policy.
ghost use Rattle.std.specs.Prelude.{◌≡◌, ◌≤◌, ◌+◌, ◌⊎◌, IfErr, IfNone, IfOk, IfSome, codes, length};
ghost use Rattle.racl_io.specs.Inputs.{most_bytes};
ghost use Rattle.racl_io.specs.declared.fault.Fault.TheVariants.{Memory};
ghost use Rattle.racl_system.specs.MarkedPolicies.{IsFileStatus, IsMarkedFault, IsUnmarked};
ghost use Rattle.racl_system.specs.PolicyTexts.{IsEnded, ended_lines};

use crate::named_reader::{opened_or_told, text_of_file};
use crate::say_and_answer_status::say_fault;
use crate::say_wrong_policy::{NamedPolicy, say_policy_fault};
use crate::system_files::SystemFiles;
use acl_policy::read_policy;
use racl_io::{Device, Fault, split_input};
use racl_report::Hint;
use std::alloc::Global;
use std::io;
use std::io::{Eprint, IsTerminal, Read};

/// Standard input as a source. Where it is a terminal that is said, but where standard error fails.
pub fn standard_source<S: SystemFiles + Eprint>(system: &S) -> Device<S::Input>
    ensures bytes { S.Input.remaining result.inner ≡ S.named system.now (codes "-") }
    ensures sound { result.failures ≡ 0 }
{
    let input = system.standard_input("-");
    if input.is_terminal() {
        let _ = system.eprintln(&Hint::Terminal);
    }
    Device::new(input)
}

// The fault of a policy's file where a marker line stands in it: such a line is a wrong one.
fn marked_policy_fault(alloc: Global, text: &[u8]) -> Option<Fault>
    ensures none { IfNone result (IsUnmarked text.now) }
    ensures some { IfSome result (λ fault. (fault ≡ Memory) ⊎ IsMarkedFault text.now fault) }
{
    match split_input(text) {
        None => None,
        Some(_) => match read_policy(alloc, text) {
            Ok(_) => None,
            Err(cause) => Some(Fault::from(cause)),
        },
    }
}

/// Reads the text of a policy's file of this name (`text_of_file`), in which a marker line is a wrong line. Where it can't be had
/// or is wrong so, that is told, and the status is answered.
pub fn text_or_told<S: Eprint, R: Read + Drop>(
    system: &S,
    alloc: Global,
    name: &str,
    reader: R,
) -> io::Result<Result<Vec<u8>, u8>>
    ensures few { IfOk result (λ found. IfOk found (λ text. length text.items ≤ most_bytes + 1)) }
    ensures text { IfOk result (λ found. IfOk found (λ text. IfSome (R.remaining reader) (λ all. text.items ≡ ended_lines all))) }
    ensures ended { IfOk result (λ found. IfOk found (λ text. IsEnded text.items)) }
    ensures unmarked { IfOk result (λ found. IfOk found (λ text. IsUnmarked text.items)) }
    ensures status { IfOk result (λ found. IfErr found (IsFileStatus (R.remaining reader))) }
{
    let text = match text_of_file(alloc, reader) {
        Ok(text) => text,
        Err(fault) => {
            return match say_fault(system, fault) {
                Ok(status) => Ok(Err(status)),
                Err(error) => Err(error),
            };
        }
    };
    let Some(fault) = marked_policy_fault(alloc, &text) else {
        return Ok(Ok(text));
    };
    let policy = NamedPolicy { name, text: &text };
    match say_policy_fault(system, alloc, policy, fault) {
        Ok(status) => Ok(Err(status)),
        Err(error) => Err(error),
    }
}

/// Reads the policy of the file of this name, in which a marker line is a wrong line. Where it can't be had or is wrong so,
/// that is told, and the status is answered: 1 where the text is wrong so or too large, else 4.
pub fn policy_text<S: SystemFiles + Eprint>(
    system: &S,
    alloc: Global,
    name: &str,
) -> io::Result<Result<Vec<u8>, u8>>
    ensures few { IfOk result (λ found. IfOk found (λ text. length text.items ≤ most_bytes + 1)) }
    ensures text { IfOk result (λ found. IfOk found (λ text. IfSome (S.named system.now name.now) (λ all. text.items ≡ ended_lines all))) }
    ensures unmarked { IfOk result (λ found. IfOk found (λ text. IsUnmarked text.items)) }
    ensures status { IfOk result (λ found. IfErr found (IsFileStatus (S.named system.now name.now))) }
{
    match opened_or_told(system, name) {
        Ok(Some(policy)) => text_or_told(system, alloc, name, policy),
        Ok(None) => Ok(Err(4)),
        Err(error) => Err(error),
    }
}
