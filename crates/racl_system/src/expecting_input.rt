//! The files of a run whose verdicts are compared with expected ones, and what is said where these are wrong.
ghost use Rattle.std.specs.Prelude.{◌≡◌, ◌≢◌, IfOk, IfSome};
ghost use Rattle.racl_system.specs.PolicyTexts.{ended_lines};
ghost use Rattle.racl_system.specs.Readers.{left_in};

use crate::live_files::{live_policy_text, opened_live};
use crate::named_reader::Reader;
use crate::system_files::SystemFiles;
use compared_verdicts::ExpectationFault;
use racl_options::Files;
use racl_report::shown_name;
use std::alloc::Global;
use std::io;
use std::io::Eprint;

/// The text of a policy, that of what is expected, and where a capture comes from.
#[derive(Drop)]
pub struct ExpectingInput<S, F> {
    pub text: Vec<u8>,
    pub expected: Vec<u8>,
    pub capture: Reader<S, F>,
}

/// Opens the capture of a run, and reads its policy, of which it says what is unlikely to be meant, and the file with this name
/// that says what is expected. Where one can't be had that is told, and the status is answered: 1 where a text is too large,
/// else 4.
pub fn opened_expecting<S: SystemFiles + Eprint>(
    system: &S,
    alloc: Global,
    files: &Files<'_>,
    name: &str,
) -> io::Result<Result<ExpectingInput<S::Input, S::File>, u8>>
    ensures text { IfOk result (λ found. IfOk found (λ opened.
        IfSome (S.named system.now files.now.policy.now) (λ all. opened.text.items ≡ ended_lines all))) }
    ensures expected { IfOk result (λ found. IfOk found (λ opened.
        IfSome (S.named system.now name.now) (λ all. opened.expected.items ≡ ended_lines all))) }
    ensures capture { IfOk result (λ found. IfOk found (λ opened.
        left_in S.Input.remaining S.File.remaining opened.capture ≡ S.named system.now files.now.capture.now)) }
{
    let opened = match opened_live(system, alloc, files) {
        Ok(Ok(opened)) => opened,
        Ok(Err(status)) => return Ok(Err(status)),
        Err(error) => return Err(error),
    };
    let expected = match live_policy_text(system, alloc, name) {
        Ok(Ok(text)) => text,
        Ok(Err(status)) => return Ok(Err(status)),
        Err(error) => return Err(error),
    };
    Ok(Ok(ExpectingInput {
        text: opened.text,
        expected,
        capture: opened.capture,
    }))
}

/// Says why the file of this name doesn't say what is expected, and answers the status.
pub fn say_wrong_expectations(
    system: &impl Eprint,
    name: &str,
    fault: ExpectationFault,
) -> io::Result<u8>
    ensures memory { IfOk result (λ status. fault ≡ ExpectationFault.Memory → status ≡ 4) }
    ensures wrong { IfOk result (λ status. fault ≢ ExpectationFault.Memory → status ≡ 1) }
{
    system.eprintln(format_args!("racl: {fault}"))?;
    if fault == ExpectationFault::Memory {
        return Ok(4);
    }
    let shown = shown_name(name);
    match system.eprintln(format_args!("racl: that is {shown}")) {
        Ok(()) => Ok(1),
        Err(error) => Err(error),
    }
}
