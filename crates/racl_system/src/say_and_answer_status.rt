//! How a run ended, said on standard error.
ghost use Rattle.std.specs.Prelude.{◌≡◌, ◌≢◌, IfOk};
ghost use Rattle.clap.specs.Words.{kind_of};
ghost use Rattle.racl_report.specs.Statuses.{status_of_fault};
ghost use Rattle.racl_system.specs.WordStatuses.{IsKindStatus};
ghost use Rattle.std.specs.IoError.{error_kind};

use clap::Error;
use racl_io::Fault;
use racl_report::{Ending, ending, failure_ending, words_ending};
use std::env::{Env, FillError};
use std::io;
use std::io::{Eprint, ErrorKind, Print};

/// Says what is to be said, and answers the status.
pub fn say_ending(rt: &impl Eprint, end: &Ending) -> io::Result<u8>
    ensures { IfOk result (λ status. status ≡ end.now.status) }
{
    match &end.message {
        None => Ok(end.status),
        Some(message) => match rt.eprintln(message) {
            Ok(()) => Ok(end.status),
            Err(error) => Err(error),
        },
    }
}

/// Says with which fault a run ended, and answers the status.
pub fn say_fault(rt: &impl Eprint, fault: Fault) -> io::Result<u8>
    ensures { IfOk result (λ status. status ≡ status_of_fault fault) }
{
    say_ending(rt, &ending(&Err(fault)))
}

/// Says that the program ends since its words are refused, and answers the status.
pub fn say_refused(rt: &(impl Print + Eprint), error: &Error) -> io::Result<u8>
    ensures { IfOk result (IsKindStatus (kind_of error.now)) }
{
    let end = words_ending(error);
    if end.message.is_none() {
        error.print(rt)?;
    }
    say_ending(rt, &end)
}

/// The most words that are looked at for one that isn't UTF-8.
const MOST_WORDS: usize = 1 << 20;

// Says which word isn't UTF-8, where one is found that has at most 4096 bytes.
fn say_broken_word(rt: &(impl Eprint + Env)) {
    let mut room = [0u8; 4096];
    for number in 1..MOST_WORDS {
        match rt.arg(number, &mut room) {
            Ok(length) if str::from_utf8(&room[..length]).is_err() => {
                let word = room[..length].escape_ascii();
                let _ = rt.eprintln(format_args!("racl: that is word {number}: {word}"));
                return;
            }
            Ok(_) | Err(FillError::TooLong) => {}
            Err(FillError::NotPresent) => return,
        }
    }
}

/// Says why the program ends where the words can't be had, or a text can't be printed, and answers the status.
pub fn failure_status(rt: &(impl Eprint + Env), error: &io::Error) -> u8
    ensures word { error_kind error.now ≡ ErrorKind.InvalidData → result ≡ 2 }
    ensures other { error_kind error.now ≢ ErrorKind.InvalidData → result ≡ 4 }
{
    let end = failure_ending(error);
    // Where standard error fails too, the status alone is left to tell.
    let _ = say_ending(rt, &end);
    if error.kind() == ErrorKind::InvalidData {
        say_broken_word(rt);
    }
    end.status
}
