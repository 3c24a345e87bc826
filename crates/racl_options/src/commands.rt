//! The commands beside a run: subcommands of the command line.
ghost use Rattle.std.specs.Prelude.{◌≡◌, IfOk, false};
ghost use Rattle.clap.specs.Words.{app_of, new_app, rule_of};
ghost use Rattle.clap.specs.declared.builder.command.Command.TheViews.{out-Command as fields_of};
ghost use Rattle.racl_options.specs.Tasks;
ghost use Rattle.racl_options.specs.Tasks.{import_script, version, with_commands, word_rule, words_rule};
ghost use Rattle.racl_options.specs.inner.Commands.{with_checks, with_questions};

use crate::command_line::{flag, value_option};
use clap::{Arg, ArgAction, Command};
use std::alloc::{AllocError, Global};

/// A command line with the subcommands.
pub fn with_subcommands<'a>(alloc: Global, command: Command<'a>) -> Result<Command<'a>, AllocError>
    ensures { IfOk result (λ c. app_of c ≡ with_commands (app_of command.entry)) }
{
    with_question_commands(alloc, with_check_commands(alloc, command)?)?
        .subcommand(import_command(alloc))?
        .subcommand(version_command(alloc))
}

// A command line with those that read one file.
fn with_check_commands<'a>(alloc: Global, command: Command<'a>) -> Result<Command<'a>, AllocError>
    ensures { IfOk result (λ c. app_of c ≡ with_checks (app_of command.entry)) }
{
    command
        .subcommand(check_command(alloc)?)?
        .subcommand(expand_command(alloc)?)
}

// A command line with those that ask what policies do.
fn with_question_commands<'a>(
    alloc: Global,
    command: Command<'a>,
) -> Result<Command<'a>, AllocError>
    ensures { IfOk result (λ c. app_of c ≡ with_questions (app_of command.entry)) }
{
    command
        .subcommand(ask_command(alloc)?)?
        .subcommand(diff_command(alloc)?)?
        .subcommand(compare_command(alloc)?)
}

fn check_command<'a>(alloc: Global) -> Result<Command<'a>, AllocError>
    ensures app { IfOk result (λ c. app_of c ≡ Tasks.check) }
    ensures local { IfOk result (λ c. (fields_of c).has_globals ≡ false) }
{
    let command = described(
        alloc,
        "check",
        "racl check POLICY",
        "Tells every wrong line of a policy, and what in a right one is unlikely to be meant",
    );
    command.after_help(after_check()).arg(word(
        alloc,
        "POLICY",
        "The policy's file; `-` is standard input",
    ))
}

fn expand_command<'a>(alloc: Global) -> Result<Command<'a>, AllocError>
    ensures app { IfOk result (λ c. app_of c ≡ Tasks.expand) }
    ensures local { IfOk result (λ c. (fields_of c).has_globals ≡ false) }
{
    let command = described(
        alloc,
        "expand",
        "racl expand FILE",
        "Writes the plain policy of one with named sets, lists, included files, and `ip` for both families",
    );
    command.after_help(after_expand()).arg(word(
        alloc,
        "FILE",
        "The file of the policy as it was written; `-` is standard input",
    ))
}

fn ask_command<'a>(alloc: Global) -> Result<Command<'a>, AllocError>
    ensures app { IfOk result (λ c. app_of c ≡ Tasks.ask) }
    ensures local { IfOk result (λ c. (fields_of c).has_globals ≡ false) }
{
    let command = described(
        alloc,
        "ask",
        "racl ask [--explain | --expect FILE] POLICY PACKET ..",
        "Tells what a policy does to packets that are written in words",
    );
    command
        .after_help(after_ask())
        .arg(flag(
            alloc,
            "explain",
            "On each line what the packet is, and the rule that decided",
        ))?
        .arg(value_option(
            alloc,
            "expect",
            "FILE",
            "Tells which verdicts aren't as FILE expects in lines such as `7 drop`",
        ))?
        .arg(word(alloc, "POLICY", "The policy's file; `-` is standard input"))?
        .arg(words(
            alloc,
            "PACKET",
            "A packet in words, as 'in udp 203.0.113.5 53 192.0.2.10 40000'",
        ))
}

fn diff_command<'a>(alloc: Global) -> Result<Command<'a>, AllocError>
    ensures app { IfOk result (λ c. app_of c ≡ Tasks.diff) }
    ensures local { IfOk result (λ c. (fields_of c).has_globals ≡ false) }
{
    let command = described(
        alloc,
        "diff",
        "racl diff [--age] OLD NEW CAPTURE",
        "Tells of which packets of a capture two policies say different things",
    );
    command
        .after_help(after_diff())
        .arg(flag(
            alloc,
            "age",
            "Sessions that have ended leave the tables, which makes room for new ones",
        ))?
        .arg(word(
            alloc,
            "OLD",
            "The file of the policy so far; `-` for one of all files is standard input",
        ))?
        .arg(word(
            alloc,
            "NEW",
            "The file of the policy that is to take its place",
        ))?
        .arg(word(alloc, "CAPTURE", "The capture's file"))
}

fn compare_command<'a>(alloc: Global) -> Result<Command<'a>, AllocError>
    ensures app { IfOk result (λ c. app_of c ≡ Tasks.compare) }
    ensures local { IfOk result (λ c. (fields_of c).has_globals ≡ false) }
{
    let command = described(
        alloc,
        "compare",
        "racl compare OLD NEW",
        "Tells what two policies decide differently, with a packet for each difference",
    );
    command
        .after_help(after_compare())
        .arg(word(
            alloc,
            "OLD",
            "The file of the policy so far; `-` for one of both is standard input",
        ))?
        .arg(word(
            alloc,
            "NEW",
            "The file of the policy that is to take its place",
        ))
}

// The command that the script of this name does, which the launcher runs.
fn import_command<'a>(alloc: Global) -> Command<'a>
    ensures app { app_of result ≡ import_script }
    ensures local { (fields_of result).has_globals ≡ false }
{
    described(
        alloc,
        "import",
        "racl import FORM [FILE]",
        "Writes a policy from another firewall's rules",
    )
    .after_help("It is a script beside the program: `racl import --help` tells its forms.")
}

fn version_command<'a>(alloc: Global) -> Command<'a>
    ensures app { app_of result ≡ version }
    ensures local { (fields_of result).has_globals ≡ false }
{
    described(
        alloc,
        "version",
        "racl version",
        "Tells the version, as --version",
    )
}

// A command of this name with its texts, and no argument yet.
fn described<'a>(alloc: Global, name: &'a str, usage: &'a str, about: &'a str) -> Command<'a>
    ensures app { app_of result ≡ new_app name.entry.now }
    ensures local { (fields_of result).has_globals ≡ false }
{
    Command::new(alloc, name).about(about).override_usage(usage)
}

// A word that has to be there, and is known by its place.
fn word<'a>(alloc: Global, id: &'a str, help: &'a str) -> Arg<'a>
    ensures rule { rule_of result ≡ word_rule id.entry.now }
    ensures local { result.global ≡ false }
{
    Arg::new(alloc, id)
        .action(ArgAction::Set)
        .required(true)
        .help(help)
}

// Words of which one at least has to be there.
fn words<'a>(alloc: Global, id: &'a str, help: &'a str) -> Arg<'a>
    ensures rule { rule_of result ≡ words_rule id.entry.now }
    ensures local { result.global ≡ false }
{
    Arg::new(alloc, id)
        .action(ArgAction::Append)
        .num_args(1..)
        .required(true)
        .help(help)
}

// The help of each command below its words. Functions of their own, so that no proof of a caller has the texts.
fn after_check() -> &'static str {
    "Exit status:
  0  the text is a policy
  1  it is none
  2  fault in the words
  4  memory or device"
}

fn after_expand() -> &'static str {
    "Example:
  racl expand rules > plain.policy

Exit status:
  0  the plain policy was written
  1  a file is wrong
  2  fault in the words
  4  memory or device"
}

fn after_ask() -> &'static str {
    "Examples:
  racl ask host.policy 'in udp 203.0.113.5 53 192.0.2.10 40000'
  racl ask --expect host.expected host.policy 'out tcp 192.0.2.10 40000 198.51.100.1 443 syn'

Exit status:
  0  done
  1  fault in the input
  2  fault in the words
  4  memory or device
  5  --expect: an expectation isn't met"
}

fn after_diff() -> &'static str {
    "A packet is changed where its two verdicts differ in more than a rule's number: rules of the two policies are \
    one where they say the same of the same direction. Timeouts and tables are those of a run without options, and a \
    capture may be of any length.

Exit status:
  0  no packet is changed
  1  fault in the input
  2  fault in the words
  3  no packet is changed, but the capture was cut off
  4  memory or device
  5  a packet is changed"
}

fn after_compare() -> &'static str {
    "Exit status:
  0  no difference was found
  1  fault in the input
  2  fault in the words
  4  memory or device
  5  a difference was found"
}
