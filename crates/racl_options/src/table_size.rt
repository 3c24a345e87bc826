//! The size of the session tables that the words ask for.
ghost use Rattle.std.specs.Prelude.{◌≡◌, option_map};
ghost use Rattle.std.specs.Borrow.{Bor};
ghost use Rattle.clap.specs.Words.{Text, first_value, found_of};
ghost use Rattle.racl_options.specs.Sizes;
ghost use Rattle.racl_options.specs.Sizes.{size_by};
ghost use Rattle.racl_options.specs.inner.Commands.{tables_id};

use crate::settings::TableSize;
use clap::ArgMatches;

// What the value of `--tables` asks for. None where it is no such value.
fn size_of(value: Option<&str>) -> Option<TableSize>
    ensures { result ≡ Sizes.size_by (option_map (λ (t : Bor Text). t.now) value.entry) }
{
    match value {
        None => Some(TableSize::Standard),
        Some("standard") => Some(TableSize::Standard),
        Some("large") => Some(TableSize::Large),
        Some(_) => None,
    }
}

/// The size of the tables that the matches ask for. None where the value of `--tables` is none that it may have.
pub fn size_named(matches: &ArgMatches<'_>) -> Option<TableSize>
    ensures { result ≡ size_by (first_value (found_of matches.now) tables_id) }
{
    size_of(matches.get_str("tables"))
}
