//! The files of a run on a policy and a capture, which is read as it comes.
ghost use Rattle.std.specs.Prelude.{◌≡◌, ◌+◌, ◌≤◌, IfErr, IfOk, IfSome, length};
ghost use Rattle.racl_io.specs.Inputs.{most_bytes};
ghost use Rattle.racl_system.specs.PolicyTexts.{ended_lines};
ghost use Rattle.racl_system.specs.Readers.{IsLiveStatus, left_in};

use crate::named_reader::{Reader, opened_or_told, text_of_file};
use crate::say_and_answer_status::say_fault;
use crate::say_policy_remarks::{Seen, say_unlooked};
use crate::system_files::SystemFiles;
use racl_options::Files;
use std::alloc::Global;
use std::io;
use std::io::Eprint;

/// The text of a policy, and where a capture comes from.
#[derive(Drop)]
pub struct LiveFiles<S, F> {
    pub text: Vec<u8>,
    pub capture: Reader<S, F>,
}

/// The text of the file of a policy whose capture is read as it comes (`text_of_file`). Where it can't be had that is told, and the
/// status is answered.
pub fn live_policy_text<S: SystemFiles + Eprint>(
    system: &S,
    alloc: Global,
    name: &str,
) -> io::Result<Result<Vec<u8>, u8>>
    ensures few { IfOk result (λ found. IfOk found (λ text. length text.items ≤ most_bytes + 1)) }
    ensures text { IfOk result (λ found. IfOk found (λ text.
        IfSome (S.named system.now name.now) (λ all. text.items ≡ ended_lines all))) }
    ensures status { IfOk result (λ found. IfErr found (IsLiveStatus (S.named system.now name.now))) }
{
    let policy = match opened_or_told(system, name) {
        Ok(Some(policy)) => policy,
        Ok(None) => return Ok(Err(4)),
        Err(error) => return Err(error),
    };
    match text_of_file(alloc, policy) {
        Ok(text) => Ok(Ok(text)),
        Err(fault) => match say_fault(system, fault) {
            Ok(status) => Ok(Err(status)),
            Err(error) => Err(error),
        },
    }
}

/// Opens the capture of a run, and reads its policy, of which it says what is unlikely to be meant. Where one can't be
/// had that is told, and the status is answered: 1 where the text is too large, else 4.
pub fn opened_live<S: SystemFiles + Eprint>(
    system: &S,
    alloc: Global,
    files: &Files<'_>,
) -> io::Result<Result<LiveFiles<S::Input, S::File>, u8>>
    ensures few { IfOk result (λ found. IfOk found (λ opened. length opened.text.items ≤ most_bytes + 1)) }
    ensures text { IfOk result (λ found. IfOk found (λ opened.
        IfSome (S.named system.now files.now.policy.now) (λ all. opened.text.items ≡ ended_lines all))) }
    ensures capture { IfOk result (λ found. IfOk found (λ opened.
        left_in S.Input.remaining S.File.remaining opened.capture ≡ S.named system.now files.now.capture.now)) }
    ensures status { IfOk result (λ found. IfErr found (IsLiveStatus (S.named system.now files.now.policy.now))) }
{
    let text = match live_policy_text(system, alloc, files.policy) {
        Ok(Ok(text)) => text,
        Ok(Err(status)) => return Ok(Err(status)),
        Err(error) => return Err(error),
    };
    let capture = match opened_or_told(system, files.capture) {
        Ok(Some(capture)) => capture,
        Ok(None) => return Ok(Err(4)),
        Err(error) => return Err(error),
    };
    let seen = Seen {
        interface: 0,
        front: &[],
    };
    say_unlooked(system, alloc, files.policy, text.as_slice(), &[seen]);
    Ok(Ok(LiveFiles { text, capture }))
}
