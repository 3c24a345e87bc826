//! The plain policy of one in a file, which may include others.
ghost use Rattle.std.specs.Prelude.{◌≡◌, ◌⊎◌, [], OnOk, false, map, true};
ghost use Rattle.policy_expand.specs.Inclusions.{file_facts};
ghost use Rattle.racl_system.specs.Expands.{AreRead, IsTextOf};
ghost use Rattle.racl_system.specs.PolicyTexts.{IsEnded};

use crate::named_reader::{bytes_of, opened_reader};
use crate::say_and_answer_status::say_fault;
use crate::system_files::SystemFiles;
use policy_expand::{PolicyFile, Told, Whole, missing_file, tell_expansion, whole_policy};
use racl_io::{Device, Fault, MOST_BYTES, write_all};
use racl_report::Unopened;
use std::alloc::{AllocError, Global};
use std::io;
use std::io::Eprint;

/// The greatest number of files of a policy.
const MOST_FILES: usize = 256;

/// What became of the next included file of a policy.
enum Next {
    /// It was read.
    Read,
    /// There is none in this file, or none more is read.
    None,
    /// It couldn't be read, which was told; the status.
    Failed(u8),
}

// Whether a text has no line, or a line feed ends the last one.
fn is_ended(text: &[u8]) -> bool
    ensures yes { result ≡ true → (text.now ≡ []) ⊎ IsEnded text.now }
    ensures no { result ≡ false → IsEnded text.now → ⊥ }
{
    match text.split_last() {
        Some((last, _)) => *last == b'\n',
        None => true,
    }
}

// Ends the last line of a file's text by a line feed, where none does.
fn end_last_line(text: &mut Vec<u8>) -> Result<(), AllocError>
    ensures { OnOk result (IsTextOf text.old.items text.new.items) }
{
    if is_ended(text) {
        return Ok(());
    }
    text.push(b'\n')?;
    Ok(())
}

// Reads the file of this name, which is told by another where it can't be opened. The status where it couldn't be read.
fn add_file<S: SystemFiles + Eprint>(
    system: &S,
    alloc: Global,
    name: &str,
    told: &str,
    files: &mut Vec<PolicyFile>,
) -> io::Result<Option<u8>>
    ensures { AreRead (S.named system.now) (map file_facts files.old.items)
        → AreRead (S.named system.now) (map file_facts files.new.items) }
{
    let reader = match opened_reader(system, name) {
        Ok(reader) => reader,
        Err(reason) => {
            system.eprintln(&Unopened { name: told, reason })?;
            return Ok(Some(4));
        }
    };
    let mut text = match bytes_of(alloc, reader) {
        Ok(text) => text,
        Err(fault) => return Ok(Some(say_fault(system, fault)?)),
    };
    if text.len() > MOST_BYTES {
        return Ok(Some(say_fault(system, Fault::TooLarge)?));
    }
    let Ok(name) = String::from_str(alloc, name) else {
        return Ok(Some(say_fault(system, Fault::Memory)?));
    };
    let Ok(()) = end_last_line(&mut text) else {
        return Ok(Some(say_fault(system, Fault::Memory)?));
    };
    match files.push(PolicyFile { name, text }) {
        Ok(()) => Ok(None),
        Err(_) => Ok(Some(say_fault(system, Fault::Memory)?)),
    }
}

// Reads the first file that the one at this place includes and that isn't read yet, where no more than the most are.
fn add_included<S: SystemFiles + Eprint>(
    system: &S,
    alloc: Global,
    place: usize,
    files: &mut Vec<PolicyFile>,
) -> io::Result<Next>
    ensures { AreRead (S.named system.now) (map file_facts files.old.items)
        → AreRead (S.named system.now) (map file_facts files.new.items) }
{
    let Some(file) = files.as_slice().get(place) else {
        return Ok(Next::None);
    };
    let Ok(missing) = missing_file(alloc, file, files.as_slice()) else {
        return Ok(Next::Failed(say_fault(system, Fault::Memory)?));
    };
    let Some(missing) = missing else {
        return Ok(Next::None);
    };
    if files.len() >= MOST_FILES {
        return Ok(Next::None);
    }
    let (number, name) = (missing.number, missing.name.as_str());
    let Ok(told) = format!(in alloc; "{}:{number}: {name}", file.name) else {
        return Ok(Next::Failed(say_fault(system, Fault::Memory)?));
    };
    match add_file(system, alloc, name, told.as_str(), files)? {
        None => Ok(Next::Read),
        Some(status) => Ok(Next::Failed(status)),
    }
}

// Reads the file of this name, and those that it includes. The status where one couldn't be read, which was told.
fn add_files<S: SystemFiles + Eprint>(
    system: &S,
    alloc: Global,
    name: &str,
    files: &mut Vec<PolicyFile>,
) -> io::Result<Option<u8>>
    ensures { AreRead (S.named system.now) (map file_facts files.old.items)
        → AreRead (S.named system.now) (map file_facts files.new.items) }
{
    if let Some(status) = add_file(system, alloc, name, name, files)? {
        return Ok(Some(status));
    }
    let mut place = 0;
    for _ in 0..2 * MOST_FILES {
        if place >= files.len() {
            return Ok(None);
        }
        match add_included(system, alloc, place, files)? {
            Next::Read => {}
            Next::None => place += 1,
            Next::Failed(status) => return Ok(Some(status)),
        }
    }
    Ok(None)
}

// The plain policy of the first of these files, or what is told of them.
fn told_policy(alloc: Global, files: &[PolicyFile]) -> Result<Told, AllocError> {
    match whole_policy(alloc, files)? {
        Whole::Lines(lines) => tell_expansion(alloc, lines.as_slice()),
        Whole::Faults(told) => Ok(Told::Faults(told)),
    }
}

/// Writes the plain policy of the file of this name, and answers the status: 0 where it was written, 1 where a file is
/// wrong, which is told, and 4 where memory ran out or a file or a device failed. No clause says what standard output gets:
/// `tests/run` looks at it.
pub fn expand_file<S: SystemFiles + Eprint>(
    system: &S,
    alloc: Global,
    name: &str,
) -> io::Result<u8> {
    let mut files = Vec::new(alloc);
    if let Some(status) = add_files(system, alloc, name, &mut files)? {
        return Ok(status);
    }
    let plain = match told_policy(alloc, files.as_slice()) {
        Ok(Told::Plain(plain)) => plain,
        Ok(Told::Faults(told)) => {
            system.eprint(told.as_str())?;
            return Ok(1);
        }
        Err(_) => return say_fault(system, Fault::Memory),
    };
    match write_all(&mut Device::new(system.standard_output()), plain.as_slice()) {
        Ok(()) => Ok(0),
        Err(fault) => say_fault(system, fault),
    }
}
