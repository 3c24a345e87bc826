//! The files of a comparison of two policies, and what is said where it fails.
ghost use Rattle.std.specs.Prelude.{◌≡◌, IfOk, IfSome};
ghost use Rattle.racl_report.specs.Statuses.{status_of_fault};
ghost use Rattle.racl_system.specs.PolicyTexts.{ended_lines};
ghost use Rattle.racl_system.specs.Readers.{left_in};

use crate::end_of_run::is_kind_said;
use crate::live_files::{live_policy_text, opened_live};
use crate::named_reader::Reader;
use crate::say_and_answer_status::say_fault;
use crate::say_policy_remarks::{Seen, say_unlooked};
use crate::system_files::SystemFiles;
use racl_io::Fault;
use racl_options::{DiffFiles, Files};
use racl_report::hint;
use std::alloc::Global;
use std::io;
use std::io::Eprint;

/// The texts of two policies, and where a capture comes from.
#[derive(Drop)]
pub struct DiffInput<S, F> {
    pub before: Vec<u8>,
    pub after: Vec<u8>,
    pub capture: Reader<S, F>,
}

/// Opens the capture of a comparison, and reads both policies, of which it says what is unlikely to be meant. Where one can't be
/// had that is told, and the status is answered: 1 where a text is too large, else 4.
pub fn opened_diff<S: SystemFiles + Eprint>(
    system: &S,
    alloc: Global,
    files: &DiffFiles<'_>,
) -> io::Result<Result<DiffInput<S::Input, S::File>, u8>>
    ensures before { IfOk result (λ found. IfOk found (λ opened.
        IfSome (S.named system.now files.now.before.now) (λ all. opened.before.items ≡ ended_lines all))) }
    ensures after { IfOk result (λ found. IfOk found (λ opened.
        IfSome (S.named system.now files.now.after.now) (λ all. opened.after.items ≡ ended_lines all))) }
    ensures capture { IfOk result (λ found. IfOk found (λ opened.
        left_in S.Input.remaining S.File.remaining opened.capture ≡ S.named system.now files.now.capture.now)) }
{
    let named = Files {
        policy: files.before,
        capture: files.capture,
    };
    let opened = match opened_live(system, alloc, &named) {
        Ok(Ok(opened)) => opened,
        Ok(Err(status)) => return Ok(Err(status)),
        Err(error) => return Err(error),
    };
    let after = match live_policy_text(system, alloc, files.after) {
        Ok(Ok(text)) => text,
        Ok(Err(status)) => return Ok(Err(status)),
        Err(error) => return Err(error),
    };
    let seen = Seen {
        interface: 0,
        front: &[],
    };
    say_unlooked(system, alloc, files.after, after.as_slice(), &[seen]);
    Ok(Ok(DiffInput {
        before: opened.text,
        after,
        capture: opened.capture,
    }))
}

/// Says with which fault a comparison ended, what is likely to be its cause, and what the file of this name is, which begins so,
/// where it is no capture; and answers the status.
pub fn say_capture_fault(
    system: &impl Eprint,
    name: &str,
    front: &[u8],
    fault: Fault,
) -> io::Result<u8>
    ensures { IfOk result (λ status. status ≡ status_of_fault fault) }
{
    let status = match say_fault(system, fault) {
        Ok(status) => status,
        Err(error) => return Err(error),
    };
    if let Some(hint) = hint(&Err(fault), &[]) {
        system.eprintln(&hint)?;
    }
    is_kind_said(system, name, front, fault)?;
    Ok(status)
}
