//! What a comparison of two policies by a capture goes by.
ghost use Rattle.std.specs.Prelude.{◌≡◌};
ghost use Rattle.racl_options.specs.declared.settings.TableSize.TheVariants.{Standard};

use crate::settings::{Lines, Options, TableSize};
use session_state::{Shown, Timeouts};

/// What a comparison goes by: what a run without options does. Sessions that have ended are removed where `ages` says so.
pub fn diff_options(ages: bool) -> Options
    ensures times { (result.times.established ≡ 86400) × (result.times.transient ≡ 120) × (result.times.udp ≡ 600) }
    ensures tables { result.tables ≡ Standard }
    ensures ages { result.ages ≡ ages }
{
    Options {
        workers: 1,
        times: Timeouts::of_a_run(),
        tables: TableSize::Standard,
        shown: Shown::Every,
        lines: Lines::Plain,
        hits: false,
        sessions: false,
        live: false,
        ages,
    }
}
