//! What the words ask for.
ghost use Rattle.std.specs.Prelude.{◌≡◌, ◌||◌, MatchResult, is_none, is_some};
ghost use Rattle.clap.specs.Words.{found_of, one_text};
ghost use Rattle.racl_options.specs.Asking as asking;
ghost use Rattle.racl_options.specs.Asking.{AskBy, asked_facts, fit_together};
ghost use Rattle.racl_options.specs.CommandLine as line;
ghost use Rattle.racl_options.specs.Behind.{text_behind};
ghost use Rattle.racl_options.specs.CommandLine.{HoldsNumber, HoldsNumbers, OptionName, Spells, has_flag, option_facts};
ghost use Rattle.racl_options.specs.Origins.{origin_facts};
ghost use Rattle.racl_options.specs.Selections.{Age, Explain, Hits, JsonLines, Live, Sessions, lines_by};
ghost use Rattle.racl_options.specs.inner.Naming.{IsRefused, SpellOptions, values_in};

use crate::named_files::{Refusal, origin_named};
use crate::selected_output::{is_given, lines_named, saved_named, shown_named};
use crate::settings::{Asked, Lines, Options, Origin, Saved, TableSize};
use crate::shard_word::shard_asked;
use crate::table_size::size_named;
use clap::ArgMatches;
use session_state::{Shown, Timeouts};
use std::alloc::Global;

const NO_SIZE: &str = "--tables takes standard or large";

const NOT_SHOWN: &str = "--only takes pass or drop";

const NOT_SAVED: &str = "--drops and --passes are of one capture: they need POLICY CAPTURE";

const ONE_FILE: &str = "--drops and --passes need a file each";

const NOT_EXPECTED: &str =
    "--expect needs POLICY CAPTURE, and goes with the timeouts, --tables and --age alone; one file of the three can be standard input";

const NOT_LIVE: &str = "--live needs POLICY CAPTURE or --interface";

const NOT_SHARED: &str = "--shard needs POLICY CAPTURE, and goes with neither --live nor --expect";

/// What the matches ask for.
pub fn asked_by<'a>(alloc: Global, matches: &ArgMatches<'a>) -> Result<Asked<'a>, Refusal>
    requires { HoldsNumbers (one_text (found_of matches.now)) }
    ensures { let values = values_in (found_of matches.now) in MatchResult result (λ asked. AskBy values (asked_facts asked)) (IsRefused (AskBy values)) }
{
    let Some(tables) = size_named(matches) else {
        return Err(Refusal::Mistake(NO_SIZE));
    };
    let Some(shown) = shown_named(matches) else {
        return Err(Refusal::Mistake(NOT_SHOWN));
    };
    let shard = match shard_asked(matches.get_str("shard")) {
        Ok(shard) => shard,
        Err(refusal) => return Err(refusal),
    };
    let origin = match origin_named(alloc, matches) {
        Ok(origin) => origin,
        Err(refusal) => return Err(refusal),
    };
    let asked = Asked {
        options: read_options(matches, tables, shown),
        origin,
        saved: saved_named(matches),
        expected: matches.get_str("expect"),
        shard,
    };
    match misfit(&asked) {
        Some(mistake) => Err(Refusal::Mistake(mistake)),
        None => Ok(asked),
    }
}

// Whether the files of a policy and a capture are asked for, which other options need.
fn are_files_asked(origin: &Origin<'_>) -> bool
    ensures { result ≡ asking.are_files (origin_facts origin.now) }
{
    matches!(origin, Origin::Files(_))
}

// Whether the options that are asked save packets, by `--drops` or `--passes`.
fn is_saved(saved: &Saved<'_>) -> bool
    ensures { result ≡ (is_some (text_behind saved.now.drops) || is_some (text_behind saved.now.passes)) }
{
    saved.drops.is_some() || saved.passes.is_some()
}

// Whether the options that are asked name one file for `--drops` and `--passes`, which can't get both.
fn is_shared_file_asked(drops: Option<&str>, passes: Option<&str>) -> bool
    ensures { result ≡ asking.is_shared (text_behind drops.entry) (text_behind passes.entry) }
{
    match (drops, passes) {
        (Some(drops), Some(passes)) => drops == passes,
        _ => false,
    }
}

// Whether lines can be written as packets come of an input that comes from there, where that is asked for.
#[tactic(auto, unfolding(crate::specs::Asking::can_be_live))]
fn can_be_live(options: &Options, origin: &Origin<'_>) -> bool
    ensures { result ≡ asking.can_be_live (option_facts options.now) (origin_facts origin.now) }
{
    !options.live || !matches!(origin, Origin::Standard)
}

// Whether the options that are asked let each packet have its plain line, and tell nothing behind the totals.
fn are_verdicts_told(options: &Options) -> bool
    ensures { result ≡ asking.are_verdicts_told (option_facts options.now) }
{
    matches!(options.shown, Shown::Every)
        && matches!(options.lines, Lines::Plain)
        && !options.hits
        && !options.sessions
        && !options.live
}

// Whether a file that is asked for can be read beside those of a policy and a capture.
fn is_beside(name: &str, origin: &Origin<'_>) -> bool
    ensures { result ≡ asking.is_beside name.now (origin_facts origin.now) }
{
    match origin {
        Origin::Files(files) => !(name == "-" && (files.policy == "-" || files.capture == "-")),
        _ => false,
    }
}

// Whether `--expect` goes with all else that is asked for.
fn can_be_expected(asked: &Asked<'_>) -> bool
    ensures { let facts = asked_facts asked.now in result ≡ asking.can_be_expected facts.expected facts }
{
    let Some(name) = asked.expected else {
        return true;
    };
    is_beside(name, &asked.origin)
        && asked.options.workers == 1
        && are_verdicts_told(&asked.options)
        && !is_saved(&asked.saved)
}

// Whether a shard of the capture goes with all else that is asked for.
fn can_be_shared(asked: &Asked<'_>) -> bool
    ensures { let facts = asked_facts asked.now in result ≡ asking.can_be_shared facts.shard facts }
{
    asked.shard.is_none()
        || are_files_asked(&asked.origin) && !asked.options.live && asked.expected.is_none()
}

// Why what is asked for doesn't go together.
fn misfit(asked: &Asked<'_>) -> Option<&'static str>
    ensures { is_none result ≡ fit_together (asked_facts asked.now) }
{
    if is_saved(&asked.saved) && !are_files_asked(&asked.origin) {
        return Some(NOT_SAVED);
    }
    if is_shared_file_asked(asked.saved.drops, asked.saved.passes) {
        return Some(ONE_FILE);
    }
    if !can_be_live(&asked.options, &asked.origin) {
        return Some(NOT_LIVE);
    }
    if !can_be_shared(asked) {
        return Some(NOT_SHARED);
    }
    if !can_be_expected(asked) {
        return Some(NOT_EXPECTED);
    }
    None
}

// The options, of which this size and these packets are known.
fn read_options(matches: &ArgMatches<'_>, tables: TableSize, shown: Shown) -> Options
    requires { HoldsNumbers (one_text (found_of matches.now)) }
    ensures spelt { SpellOptions (values_in (found_of matches.now)) (option_facts result) }
    ensures tables { result.tables ≡ tables }
    ensures shown { result.shown ≡ shown }
    ensures lines { let values = values_in (found_of matches.now) in lines_by (has_flag values JsonLines) (has_flag values Explain) ≡ result.lines }
    ensures hits { has_flag (values_in (found_of matches.now)) Hits ≡ result.hits }
    ensures sessions { has_flag (values_in (found_of matches.now)) Sessions ≡ result.sessions }
    ensures live { has_flag (values_in (found_of matches.now)) Live ≡ result.live }
    ensures ages { has_flag (values_in (found_of matches.now)) Age ≡ result.ages }
{
    let workers = number_at(matches, "workers");
    let established = number_at(matches, "tcp-established");
    let transient = number_at(matches, "tcp-transient");
    let udp = number_at(matches, "udp");
    Options {
        workers: workers as usize,
        times: Timeouts {
            established,
            transient,
            udp,
        },
        tables,
        shown,
        lines: lines_named(matches),
        hits: is_given(matches, "hits"),
        sessions: is_given(matches, "sessions"),
        live: is_given(matches, "live"),
        ages: is_given(matches, "age"),
    }
}

// The number that the option of this name asks for, or its default.
fn number_at(matches: &ArgMatches<'_>, name: &str) -> u32
    requires { HoldsNumber 4294967295 (one_text (found_of matches.now) name.now) }
    ensures { (option : OptionName)
        → HoldsNumber (line.most_of option) (one_text (found_of matches.now) name.now)
        → Spells option (one_text (found_of matches.now) name.now) result }
{
    match matches.get_one::<u32>(name) {
        Some(number) => number,
        None => unreachable!(),
    }
}
