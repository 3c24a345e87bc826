//! The command line: the words with which the program is called, read by `clap`.
ghost use Rattle.std.specs.Prelude.{◌≡◌, ◌≢◌, ◌⊎◌, List, ◌∷◌, IfErr, IfOk, MatchResult, false, slice_get};
ghost use Rattle.clap.specs.Walk.{Text, texts};
ghost use Rattle.clap.specs.Words.{HasKind, app_of, fault_of, kind_of, rule_of};
ghost use Rattle.clap.specs.declared.builder.action.ArgAction.TheVariants.{Set, SetTrue};
ghost use Rattle.racl_options.specs.Asking.{AskForNothing, AskForRun, AskedFacts, asked_facts};
ghost use Rattle.racl_options.specs.CommandLine as line;
ghost use Rattle.racl_options.specs.CommandLine.{Established, IsRequest, long_rule, most_of, racl, range_rule};
ghost use Rattle.racl_options.specs.Options.{AreNames, AreSettings, Setting, Use, asked_as, values_of, words_as};
ghost use Rattle.racl_options.specs.Origins.{Name, OriginFacts};
ghost use Rattle.racl_options.specs.inner.Commands;
ghost use Rattle.racl_options.specs.inner.Commands.{with_flags, with_lines, with_options, with_reports, with_selections, with_values, without_options};

use crate::asked_options::asked_by;
use crate::named_files::Refusal;
use crate::settings::Asked;
use crate::task_words::with_whole_help;
use clap::error::ErrorKind;
use clap::{Arg, ArgAction, Command, Error, value_parser};
use std::alloc::{AllocError, Global};

/// Reads the words of the command line, of which the first is the program's name. An `Err` is a request for the help or
/// the version, a mistake in the words, or that memory ran out, by its kind.
pub fn options<'a>(alloc: Global, words: &'a [&'a str]) -> Result<Asked<'a>, Error>
    ensures ok { IfOk result (λ a. AskForRun (texts words.entry.now) (asked_facts a)) }

    // Words that ask for something, and those that a user writes for it, are refused for want of
    // memory alone.
    ensures accepts { (asked : AskedFacts) → AskForRun (texts words.entry.now) asked
        → MatchResult result (λ a. asked_facts a ≡ asked) (λ e. kind_of e ≡ ErrorKind.OutOfMemory) }
    ensures written { (program : Text) (settings : List Setting) (uses : List Use) (names : List Text) (origin : OriginFacts)
        → AreSettings settings → AreNames names → Name (slice_get names 0) (slice_get names 1) (values_of uses) origin
        → texts words.entry.now ≡ program ∷ words_as settings uses names
        → MatchResult result (λ a. asked_facts a ≡ asked_as settings origin) (λ e. kind_of e ≡ ErrorKind.OutOfMemory) }

    // An error has a kind of the words' fault, or they have none and yet ask for nothing, or memory ran out.
    ensures refuses { IfErr result (λ e. HasKind (fault_of racl (texts words.entry.now)) e
        ⊎ ((kind_of e ≡ ErrorKind.ValueValidation) × AskForNothing (texts words.entry.now))) }
{
    let mut command = command(alloc)?;
    let matches = match command.try_get_matches_from_mut(words) {
        Ok(matches) => matches,
        Err(error) => return Err(with_whole_help(alloc, error)),
    };
    match asked_by(alloc, &matches) {
        Ok(asked) => Ok(asked),
        Err(Refusal::Memory) => Err(Error::from(AllocError)),
        Err(Refusal::Mistake(text)) => Err(command.error(ErrorKind::ValueValidation, text)?),
    }
}

/// The status with which the program ends after a command line whose words `options` refuses.
pub fn words_status(error: &Error) -> u8
    ensures request { IsRequest (kind_of error.now) → result ≡ 0 }
    ensures memory { kind_of error.now ≡ ErrorKind.OutOfMemory → result ≡ 4 }
    ensures mistake { (IsRequest (kind_of error.now) → ⊥)
        → kind_of error.now ≢ ErrorKind.OutOfMemory → result ≡ 2 }
{
    match error.kind() {
        ErrorKind::DisplayHelp | ErrorKind::DisplayVersion => 0,
        ErrorKind::OutOfMemory => 4,
        _ => 2,
    }
}

const VERSION: &str = "0.1.0";

const ABOUT: &str = "Judges the packets of a capture by ordered rules and by sessions.";

const USAGE: &str = "racl [OPTIONS] POLICY CAPTURE
       racl [OPTIONS] --interface N=CAPTURE .. POLICY
       racl [OPTIONS] < INPUT
       racl COMMAND ..";

// The help of the command line below the options. A function of its own, so that no proof of a caller has the text.
fn after_help() -> &'static str {
    "INPUT is a policy, a line `pcap` or `hex`, and the capture in that form; POLICY and CAPTURE are such \
    a policy and a capture's bytes. CAPTURE may be of any length; INPUT, and without --live the files of --interface together, \
    have at most 67108864 bytes. The report goes to standard output. --drops, --passes, --expect and --shard need POLICY CAPTURE, and --live that or --interface. A file with the name of a command is written ./NAME. racl-page is a script beside the program.

Examples:
  racl check host.policy
  racl expand rules > host.policy
  racl import iptables-save server.iptables > host.policy
  racl ask host.policy 'in udp 203.0.113.5 53 192.0.2.10 40000'
  racl host.policy host.pcap
  racl --interface 1=eth1.pcap --interface 2=eth2.pcap router.policy
  racl --workers 4 --udp 60 < examples/first_path.racl
  racl --explain --only drop --hits host.policy host.pcap
  racl --json --hits --sessions host.policy host.pcap
  racl --json --hits host.policy host.pcap | racl-page > page.html
  racl --drops dropped.pcap --passes passed.pcap host.policy host.pcap
  tcpdump -i eth0 -U -w - | racl --live host.policy -
  racl --live --interface 1=eth1.fifo --interface 2=eth2.fifo router.policy
  racl --workers 4 --hits host.policy long.pcap
  racl --shard 1/8 --hits host.policy long.pcap
  racl --expect host.expected host.policy host.pcap
  racl diff host.policy new.policy host.pcap
  racl compare host.policy new.policy

Exit status:
  0  done
  1  fault in the input
  2  fault in the words
  3  done, but the capture was cut off
  4  memory or device
  5  diff, compare: something is changed; --expect: an expectation isn't met"
}

// The command line as `clap` reads it, with all options, flags and files.
pub fn command<'a>(alloc: Global) -> Result<Command<'a>, AllocError>
    ensures { IfOk result (λ c. app_of c ≡ racl) }
{
    command_with_flags(alloc)?
        .arg(file_argument(
            alloc,
            "POLICY",
            "The policy's file; `-` for one of all files is standard input",
        ))?
        .arg(file_argument(alloc, "CAPTURE", "The capture's file"))
}

// The command with its options and flags, and no file yet.
fn command_with_flags<'a>(alloc: Global) -> Result<Command<'a>, AllocError>
    ensures { IfOk result (λ c. app_of c ≡ with_flags) }
{
    command_with_lines(alloc)?
        .arg(flag(
            alloc,
            "live",
            "Lines are written as packets come; it implies --age",
        ))?
        .arg(flag(
            alloc,
            "age",
            "Sessions that have ended leave the tables, which makes room for new ones",
        ))
}

// The command with its options and the flags that say what is reported, up to the form of the lines.
fn command_with_lines<'a>(alloc: Global) -> Result<Command<'a>, AllocError>
    ensures { IfOk result (λ c. app_of c ≡ with_lines) }
{
    command_with_reports(alloc)?
        .arg(flag(
            alloc,
            "explain",
            "On each line what the packet is, and the rule that decided",
        ))?
        .arg(flag(
            alloc,
            "json",
            "Each line and the totals as an object of JSON",
        ))
}

// The command with its options and the flags that say what is reported, up to the sessions.
fn command_with_reports<'a>(alloc: Global) -> Result<Command<'a>, AllocError>
    ensures { IfOk result (λ c. app_of c ≡ with_reports) }
{
    command_with_values(alloc)?
        .arg(flag(alloc, "summary", "No lines of packets"))?
        .arg(flag(
            alloc,
            "hits",
            "Behind the totals, how many packets each rule decided, and counts of sessions",
        ))?
        .arg(flag(
            alloc,
            "sessions",
            "At the end, the sessions that the tables hold after the run",
        ))
}

// The command with its options that have a value, and no flag yet.
fn command_with_values<'a>(alloc: Global) -> Result<Command<'a>, AllocError>
    ensures { IfOk result (λ c. app_of c ≡ with_values) }
{
    command_with_selections(alloc)?
        .arg(value_option(
            alloc,
            "drops",
            "FILE",
            "Saves the packets that are dropped, as a capture",
        ))?
        .arg(value_option(
            alloc,
            "passes",
            "FILE",
            "Saves the packets that pass, as a capture",
        ))?
        .arg(value_option(
            alloc,
            "expect",
            "FILE",
            "Tells which verdicts aren't as FILE expects in lines such as `7 drop`",
        ))?
        .arg(value_option(alloc, "shard", "K/N", "The packets of shard K of N alone"))
}

// The command with its options that have a value, up to the packets that are shown.
fn command_with_selections<'a>(alloc: Global) -> Result<Command<'a>, AllocError>
    ensures { IfOk result (λ c. app_of c ≡ with_selections) }
{
    command_with_options(alloc)?
        .arg(value_option(
            alloc,
            "tables",
            "standard|large",
            "Room for sessions, `large` for many flows [default: standard]",
        ))?
        .arg(interface_option(alloc))?
        .arg(value_option(
            alloc,
            "only",
            "pass|drop",
            "Only the lines of packets that pass, or that are dropped",
        ))
}

// The command with its options of a number, and no other yet.
fn command_with_options<'a>(alloc: Global) -> Result<Command<'a>, AllocError>
    ensures { IfOk result (λ c. app_of c ≡ with_options) }
{
    described_command(alloc)
        .arg(number_option(
            alloc,
            "workers",
            "1",
            16,
            "N",
            "Threads that judge packets, 1 to 16",
        ))?
        .arg(timeout_option(
            alloc,
            "tcp-established",
            "86400",
            "How long an established TCP session stays, 1 to 4294967295",
        ))?
        .arg(timeout_option(
            alloc,
            "tcp-transient",
            "120",
            "How long any other TCP session stays, 1 to 4294967295",
        ))?
        .arg(timeout_option(
            alloc,
            "udp",
            "600",
            "How long a session of UDP or echo stays, 1 to 4294967295",
        ))
}

// The command with its texts, and no option yet.
pub fn described_command<'a>(alloc: Global) -> Command<'a>
    ensures { app_of result ≡ without_options }
{
    Command::new(alloc, "racl")
        .version(VERSION)
        .about(ABOUT)
        .override_usage(USAGE)
        .after_help(after_help())
}

// An option of the command line whose value is a timeout in seconds.
fn timeout_option<'a>(alloc: Global, name: &'a str, default: &'a str, help: &'a str) -> Arg<'a>
    ensures rule { rule_of result ≡ range_rule name.entry.now default.entry.now (most_of Established) }
    ensures local { result.global ≡ false }
{
    number_option(alloc, name, default, u32::MAX, "SECONDS", help)
}

// An option of the command line whose value is a number, and has a default.
fn number_option<'a>(
    alloc: Global,
    name: &'a str,
    default: &'a str,
    most: u32,
    unit: &'a str,
    help: &'a str,
) -> Arg<'a>
    ensures rule { rule_of result ≡ range_rule name.entry.now default.entry.now most }
    ensures local { result.global ≡ false }
{
    Arg::new(alloc, name)
        .long(name)
        .action(ArgAction::Set)
        .value_parser(value_parser!(u32).range(1..=i64::from(most)))
        .default_value(default)
        .value_name(unit)
        .help(help)
}

// An option of the command line whose value is a text, and has no default.
pub fn value_option<'a>(alloc: Global, name: &'a str, value: &'a str, help: &'a str) -> Arg<'a>
    ensures rule { rule_of result ≡ long_rule name.entry.now Set 1 }
    ensures local { result.global ≡ false }
{
    Arg::new(alloc, name)
        .long(name)
        .action(ArgAction::Set)
        .value_name(value)
        .help(help)
}

// The option `--interface` of the command line, which may stand there several times.
fn interface_option<'a>(alloc: Global) -> Arg<'a>
    ensures rule { rule_of result ≡ Commands.interface_rule }
    ensures local { result.global ≡ false }
{
    Arg::new(alloc, "interface")
        .long("interface")
        .action(ArgAction::Append)
        .value_name("N=CAPTURE")
        .help("The capture of the interface with number N, 0 to 255; once for each of them")
}

// A flag of the command line.
pub fn flag<'a>(alloc: Global, name: &'a str, help: &'a str) -> Arg<'a>
    ensures rule { rule_of result ≡ long_rule name.entry.now SetTrue 0 }
    ensures local { result.global ≡ false }
{
    Arg::new(alloc, name)
        .long(name)
        .action(ArgAction::SetTrue)
        .help(help)
}

// An argument of the command line that names a file, and is known by its place.
fn file_argument<'a>(alloc: Global, id: &'a str, help: &'a str) -> Arg<'a>
    ensures rule { rule_of result ≡ line.file_rule id.entry.now }
    ensures local { result.global ≡ false }
{
    Arg::new(alloc, id).action(ArgAction::Set).help(help)
}
