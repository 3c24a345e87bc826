//! Which packets a report has lines of.
ghost use Rattle.std.specs.Prelude.{◌≡◌};
ghost use Rattle.session_state.specs.Passes.{is_shown};

use crate::verdict::Verdict;

/// Which packets have a line in the report.
#[derive(Clone, Copy, Debug, PartialEq, Eq)]
pub enum Shown {
    Every,
    /// Those that pass.
    Passing,
    /// Those that are dropped.
    Dropped,
    Nothing,
}

/// Whether a packet with this verdict has a line in a report of shown lines.
pub fn has_line(shown: Shown, verdict: Verdict) -> bool
    ensures { result ≡ is_shown shown verdict }
{
    match shown {
        Shown::Every => true,
        Shown::Passing => verdict.passes(),
        Shown::Dropped => !verdict.passes(),
        Shown::Nothing => false,
    }
}
