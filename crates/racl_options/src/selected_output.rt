//! What the words select: the packets that are shown, what is told of them, and where packets are saved.
ghost use Rattle.std.specs.Prelude.{◌≡◌, option_map};
ghost use Rattle.std.specs.Borrow.{Bor};
ghost use Rattle.clap.specs.Words.{Text, first_value, found_of};
ghost use Rattle.racl_options.specs.Behind.{text_behind};
ghost use Rattle.racl_options.specs.CommandLine.{has_flag};
ghost use Rattle.racl_options.specs.Selections;
ghost use Rattle.racl_options.specs.Selections.{JsonLines, Explain, Summary, lines_by, shown_by};
ghost use Rattle.racl_options.specs.inner.Commands.{drops_id, only_id, passes_id};
ghost use Rattle.racl_options.specs.inner.Naming.{values_in};

use crate::settings::{Lines, Saved};
use clap::ArgMatches;
use session_state::Shown;

/// Whether the matches have the flag that selects an output.
pub fn is_given(matches: &ArgMatches<'_>, flag: &str) -> bool
    ensures { result ≡ Selections.is_given (first_value (found_of matches.now) flag.now) }
{
    match matches.get_str(flag) {
        Some("true") => true,
        _ => false,
    }
}

// The packets that the matched value of `--only` asks to be shown. None where it is no such value.
fn shown_only(value: Option<&str>) -> Option<Shown>
    ensures { result ≡ Selections.shown_only (option_map (λ (t : Bor Text). t.now) value.entry) }
{
    match value {
        None => Some(Shown::Every),
        Some("pass") => Some(Shown::Passing),
        Some("drop") => Some(Shown::Dropped),
        Some(_) => None,
    }
}

/// The packets that the matches ask to be shown. None where the value of `--only` is none that it may have.
pub fn shown_named(matches: &ArgMatches<'_>) -> Option<Shown>
    ensures { let values = values_in (found_of matches.now) in result ≡ shown_by (has_flag values Summary) (values.first only_id) }
{
    let shown = shown_only(matches.get_str("only"))?;
    if is_given(matches, "summary") {
        Some(Shown::Nothing)
    } else {
        Some(shown)
    }
}

/// What the matched flags ask to be told of each packet.
pub fn lines_named(matches: &ArgMatches<'_>) -> Lines
    ensures { let values = values_in (found_of matches.now) in result ≡ lines_by (has_flag values JsonLines) (has_flag values Explain) }
{
    if is_given(matches, "json") {
        Lines::Json
    } else if is_given(matches, "explain") {
        Lines::Explained
    } else {
        Lines::Plain
    }
}

/// The files that are selected to get packets, as the matches have them.
pub fn saved_named<'a>(matches: &ArgMatches<'a>) -> Saved<'a>
    ensures drops { text_behind result.drops ≡ first_value (found_of matches.now) drops_id }
    ensures passes { text_behind result.passes ≡ first_value (found_of matches.now) passes_id }
{
    Saved {
        drops: matches.get_str("drops"),
        passes: matches.get_str("passes"),
    }
}
