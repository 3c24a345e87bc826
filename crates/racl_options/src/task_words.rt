//! The words that begin with the name of a command, and what they ask for.
ghost use Rattle.std.specs.Prelude.{◌≡◌, ◌∷◌, [], IfErr, IfOk, MatchResult, None, Ok, Option, Some, codes, false, option_map};
ghost use Rattle.clap.specs.Kinds.{Kinds};
ghost use Rattle.clap.specs.Walk.{texts};
ghost use Rattle.clap.specs.Words.{FailsBy, HasKind, fault_of, first_value, found_of, kind_of};
ghost use Rattle.clap.specs.declared.error.kind.ErrorKind.TheVariants.{DisplayHelp, DisplayVersion};
ghost use Rattle.racl_options.specs.Tasks as tasks;
ghost use Rattle.racl_options.specs.Tasks.{AskForTask, RefusesCommand, RefusesTask, begins_with_command, named_task, racl_commands, with_commands};
ghost use Rattle.racl_options.specs.Tasks.{AskTask, CheckTask, CompareTask, DiffTask, ExpandTask, TaskFacts, task_facts, task_in};
ghost use Rattle.racl_options.specs.inner.Commands.{without_options};
ghost use Rattle.racl_options.specs.inner.Naming.{values_in};

use crate::command_line::{command, described_command, options};
use crate::commands::with_subcommands;
use crate::selected_output::is_given;
use crate::tasks::{AskedPackets, CompareFiles, DiffFiles, Task};
use clap::error::ErrorKind;
use clap::{ArgMatches, Error};
use std::alloc::{AllocError, Global};
use strsim::osa_distance;

static HELP_WORDS: [&str; 2] = ["racl", "--help"];

static VERSION_WORDS: [&str; 2] = ["racl", "--version"];

const NOT_ASKED: &str =
    "that can't be done: one file at most is standard input, `ask` takes --explain or --expect, and `import` is a script beside the program";

/// What the words ask for that begin with the name of a command, behind the program's. `None`: they begin with none. An `Err` is a
/// request for help or for the version, a mistake in the words, or that memory ran out, by its kind.
pub fn task_of<'a>(alloc: Global, words: &'a [&'a str]) -> Result<Option<Task<'a>>, Error>
    ensures ok { IfOk result (λ task. AskForTask (texts words.entry.now) (option_map task_facts task)) }

    // Words that ask for something are refused for want of memory alone, and others aren't read.
    ensures accepts { (task : Option TaskFacts) → AskForTask (texts words.entry.now) task
        → MatchResult result (λ found. option_map task_facts found ≡ task) (λ e. kind_of e ≡ ErrorKind.OutOfMemory) }
    ensures none { begins_with_command (texts words.entry.now) ≡ false → result ≡ Ok None }
    ensures refuses { IfErr result (RefusesTask (texts words.entry.now)) }
{
    if !names_command(words) {
        return Ok(None);
    }
    match task_of_command(alloc, words) {
        Ok(task) => Ok(Some(task)),
        Err(error) => Err(error),
    }
}

// Whether the first word after the program's name is that of a command, or asks for help.
fn names_command(words: &[&str]) -> bool
    ensures { result ≡ begins_with_command (texts words.now) }
{
    words.len() > 1 && is_command(words[1])
}

fn is_command(word: &str) -> bool
    ensures { result ≡ tasks.is_command word.now }
{
    word == "check"
        || (word == "expand"
            || (word == "ask"
                || (word == "diff"
                    || (word == "compare"
                        || (word == "import" || (word == "version" || word == "help"))))))
}

// What the command does that the words begin with.
fn task_of_command<'a>(alloc: Global, words: &'a [&'a str]) -> Result<Task<'a>, Error>
    ensures ok { IfOk result (λ task. (fault_of racl_commands (texts words.entry.now) ≡ []) × (named_task (texts words.entry.now) ≡ Some (task_facts task))) }
    ensures refuses { IfErr result (RefusesCommand (texts words.entry.now)) }
{
    let base = command(alloc)?;
    let mut command = with_subcommands(alloc, base)?;
    let matches = match command.try_get_matches_from_mut(words) {
        Ok(matches) => matches,
        Err(error) => return Err(error),
    };
    let Some((name, found)) = matches.subcommand() else {
        return Err(command.error(ErrorKind::ValueValidation, NOT_ASKED)?);
    };
    let task = task_by(alloc, name, found)?;
    match task {
        Some(task) => Ok(task),
        None if name == "version" => Err(version_asked(alloc)),
        None => Err(command.error(ErrorKind::ValueValidation, NOT_ASKED)?),
    }
}

/// An error of the run's words, of which a request for help gets that of the command line with all of its subcommands.
pub fn with_whole_help(alloc: Global, error: Error) -> Error
    ensures { (kinds : Kinds) → HasKind kinds error → HasKind kinds result }
{
    match error.kind() {
        ErrorKind::DisplayHelp => whole_help(alloc),
        _ => error,
    }
}

// The error that is the help of the command line with all of its subcommands.
fn whole_help(alloc: Global) -> Error
    ensures { HasKind (DisplayHelp ∷ []) result }
{
    match whole_help_or_none(alloc) {
        Ok(_) => unreachable!(),
        Err(error) => error,
    }
}

fn whole_help_or_none(alloc: Global) -> Result<ArgMatches<'static>, Error>
    ensures { FailsBy (DisplayHelp ∷ []) result }
{
    let base = command(alloc)?;
    let mut command = with_subcommands(alloc, base)?;
    command.try_get_matches_from_mut(HELP_WORDS.as_slice())
}

// The error that is the version.
fn version_asked(alloc: Global) -> Error
    ensures { HasKind (DisplayVersion ∷ []) result }
{
    match options(alloc, VERSION_WORDS.as_slice()) {
        Ok(_) => unreachable!(),
        Err(error) => error,
    }
}

// What the matches of the command of this name ask for.
fn task_by<'a>(
    alloc: Global,
    name: &str,
    matches: &ArgMatches<'a>,
) -> Result<Option<Task<'a>>, AllocError>
    ensures { IfOk result (λ task. option_map task_facts task ≡ task_in name.now (values_in (found_of matches.now))) }
{
    match name {
        "check" => Ok(check_by(matches)),
        "expand" => Ok(expand_by(matches)),
        "ask" => ask_by(alloc, matches),
        "diff" => Ok(diff_by(matches)),
        "compare" => Ok(compare_by(matches)),
        _ => Ok(None),
    }
}

fn check_by<'a>(matches: &ArgMatches<'a>) -> Option<Task<'a>>
    ensures { option_map task_facts result ≡ option_map CheckTask (first_value (found_of matches.now) (codes "POLICY")) }
{
    match matches.get_str("POLICY") {
        Some(policy) => Some(Task::Check(policy)),
        None => None,
    }
}

fn expand_by<'a>(matches: &ArgMatches<'a>) -> Option<Task<'a>>
    ensures { option_map task_facts result ≡ option_map ExpandTask (first_value (found_of matches.now) (codes "FILE")) }
{
    match matches.get_str("FILE") {
        Some(file) => Some(Task::Expand(file)),
        None => None,
    }
}

fn ask_by<'a>(alloc: Global, matches: &ArgMatches<'a>) -> Result<Option<Task<'a>>, AllocError>
    ensures { IfOk result (λ task. option_map task_facts task ≡ option_map AskTask (tasks.ask_by (values_in (found_of matches.now)))) }
{
    let Some(policy) = matches.get_str("POLICY") else {
        return Ok(None);
    };
    let Some(words) = matches.get_strs("PACKET") else {
        return Ok(None);
    };
    let explained = is_given(matches, "explain");
    let expected = matches.get_str("expect");
    if explained && expected.is_some() {
        return Ok(None);
    }
    let packets = Vec::from_slice(alloc, words)?;
    Ok(Some(Task::Ask(AskedPackets {
        explained,
        expected,
        policy,
        packets,
    })))
}

// How many files of this name are standard input.
fn stream_in(name: &str) -> usize
    ensures { result ≡ tasks.stream_in name.now }
{
    usize::from(name == "-")
}

fn diff_by<'a>(matches: &ArgMatches<'a>) -> Option<Task<'a>>
    ensures { option_map task_facts result ≡ option_map DiffTask (tasks.diff_by (values_in (found_of matches.now))) }
{
    let before = matches.get_str("OLD")?;
    let after = matches.get_str("NEW")?;
    let capture = matches.get_str("CAPTURE")?;
    if stream_in(before) + (stream_in(after) + stream_in(capture)) > 1 {
        return None;
    }
    Some(Task::Diff(DiffFiles {
        before,
        after,
        capture,
        ages: is_given(matches, "age"),
    }))
}

fn compare_by<'a>(matches: &ArgMatches<'a>) -> Option<Task<'a>>
    ensures { option_map task_facts result ≡ option_map CompareTask (tasks.compare_by (values_in (found_of matches.now))) }
{
    let before = matches.get_str("OLD")?;
    let after = matches.get_str("NEW")?;
    if before == "-" && after == "-" {
        return None;
    }
    Some(Task::Compare(CompareFiles { before, after }))
}

/// Refuses words of which the first after the program's names no command, as `clap` does, with those that are close to it.
pub fn known_command<'a>(alloc: Global, words: &'a [&'a str]) -> Result<(), Error>
    ensures ok { IfOk result (λ _. fault_of (with_commands without_options) (texts words.entry.now) ≡ []) }
    ensures refuses { IfErr result (HasKind (fault_of (with_commands without_options) (texts words.entry.now))) }
{
    let base = described_command(alloc);
    let mut command = with_subcommands(alloc, base)?;
    match command.try_get_matches_from_mut(words) {
        Ok(_) => Ok(()),
        Err(error) => Err(error),
    }
}

/// The first word after the program's, where it may be a command that was mistyped: it is none and no option, and stands there
/// alone or is a letter off one.
pub fn doubtful_word<'a>(alloc: Global, words: &'a [&'a str]) -> Result<Option<&'a str>, AllocError>
    ensures { IfOk result (λ word. option_map (λ w. w.now) word ≡ tasks.doubtful_word (texts words.entry.now)) }
{
    if words.len() < 2 {
        return Ok(None);
    }
    let word = words[1];
    if is_understood(word) {
        return Ok(None);
    }
    if words.len() == 2 || is_close(alloc, word)? {
        return Ok(Some(word));
    }
    Ok(None)
}

// Whether a word is a command's name, or one of options.
fn is_understood(word: &str) -> bool
    ensures { result ≡ tasks.is_understood word.now }
{
    is_command(word) || word.as_bytes().starts_with(b"-")
}

// Whether a word is a letter at most off a command's name.
fn is_close(alloc: Global, word: &str) -> Result<bool, AllocError>
    ensures { IfOk result (λ close. close ≡ tasks.is_close word.now) }
{
    Ok(
        is_a_letter_off(alloc, word, "check")?
            || (is_a_letter_off(alloc, word, "expand")?
                || (is_a_letter_off(alloc, word, "ask")?
                    || (is_a_letter_off(alloc, word, "diff")?
                        || (is_a_letter_off(alloc, word, "compare")?
                            || (is_a_letter_off(alloc, word, "import")?
                                || (is_a_letter_off(alloc, word, "version")?
                                    || is_a_letter_off(alloc, word, "help")?)))))),
    )
}

fn is_a_letter_off(alloc: Global, word: &str, name: &str) -> Result<bool, AllocError>
    ensures { IfOk result (λ close. close ≡ tasks.is_a_letter_off word.now name.now) }
{
    Ok(osa_distance(alloc, word, name)? < 2)
}
