//! The program's words, and what they ask for.
ghost use Rattle.std.specs.Prelude.{◌≡◌, IfErr, IfOk, map, string_bytes};
ghost use Rattle.clap.specs.Walk.{texts};
ghost use Rattle.racl_system.specs.WordStatuses.{AskForWords, IsWordsStatus};

use crate::asked_words::Words;
use crate::say_and_answer_status::say_refused;
use racl_options::{doubtful_word, known_command, options, task_of};
use std::alloc::Global;
use std::fs::metadata;
use std::io;
use std::io::{Eprint, ErrorKind, Print};

/// The words of a command line as texts.
pub fn texts_of<'a>(alloc: Global, words: &'a [String]) -> io::Result<Vec<&'a str>>
    ensures { IfOk result (λ found. texts found.items ≡ map string_bytes words.now) }
{
    let mut texts = Vec::new(alloc);
    for word in words {
        texts.push(word.as_str())?;
    }
    Ok(texts)
}

/// What the words ask for. Where they are refused that is told, and the status is answered.
pub fn asked_or_status<'a>(
    system: &(impl Print + Eprint),
    alloc: Global,
    words: &'a [&'a str],
) -> io::Result<Result<Words<'a>, u8>>
    ensures asked { IfOk result (λ found. IfOk found (AskForWords (texts words.entry.now))) }
    ensures status { IfOk result (λ found. IfErr found (IsWordsStatus (texts words.entry.now))) }
{
    match task_of(alloc, words) {
        Ok(Some(task)) => Ok(Ok(Words::Command(task))),
        Ok(None) => match options(alloc, words) {
            Ok(asked) => Ok(Ok(Words::Run(asked))),
            Err(error) => Ok(Err(say_refused(system, &error)?)),
        },
        Err(error) => Ok(Err(say_refused(system, &error)?)),
    }
}

/// Says that the first word is none of the commands, where it may be one that was mistyped and names no file, and answers the
/// status. None: the words are to be read. No clause says which files there are: `tests/run` looks at it.
pub fn mistyped_status<'a>(
    rt: &HostRuntime,
    alloc: Global,
    words: &'a [&'a str],
) -> io::Result<Option<u8>> {
    let Some(word) = doubtful_word(alloc, words)? else {
        return Ok(None);
    };
    match metadata(rt, word) {
        Err(error) if error.kind() == ErrorKind::NotFound => {}
        _ => return Ok(None),
    }
    match known_command(alloc, &words[..2]) {
        Ok(()) => Ok(None),
        Err(error) => Ok(Some(say_refused(rt, &error)?)),
    }
}
