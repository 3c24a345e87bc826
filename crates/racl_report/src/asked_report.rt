//! What stands behind the lines of a report, as the options ask for it.
ghost use Rattle.std.specs.Prelude.{◌≡◌, IfOk};
ghost use Rattle.racl_views.specs.Stored.{stored_facts};
ghost use Rattle.racl_report.specs.RunReports;
ghost use Rattle.racl_report.specs.RunReports.{sessions_behind};

use racl_options::{Lines, Options};
use racl_views::{StoredPairs, TextOrJson, sessions_text};
use std::alloc::{AllocError, Global};

/// The form of the hits and sessions behind a report's lines, where these are asked for in this form.
pub fn view_behind(lines: Lines) -> TextOrJson
    ensures { result ≡ RunReports.view_behind lines }
{
    match lines {
        Lines::Plain | Lines::Explained => TextOrJson::Text,
        Lines::Json => TextOrJson::Json,
    }
}

/// The part of a report that tells of sessions, where the options ask for it.
pub fn sessions_of(
    alloc: Global,
    options: &Options,
    stored: &StoredPairs,
) -> Result<Vec<u8>, AllocError>
    ensures { IfOk result (λ told. told.items ≡ sessions_behind options.now (stored_facts stored.now)) }
{
    if options.sessions {
        sessions_text(alloc, view_behind(options.lines), options.times, stored)
    } else {
        Ok(Vec::new(alloc))
    }
}
