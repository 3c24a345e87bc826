//! Which packets are chosen by their verdicts.
ghost use Rattle.std.specs.Prelude.{◌≡◌};
ghost use Rattle.racl_views.specs.ChosenRecords;

use session_state::Verdict;

/// Packets that are chosen by their verdicts.
#[derive(Clone, Copy)]
pub enum Chosen {
    /// Those that pass.
    Passing,
    /// Those that are dropped.
    Dropped,
}

impl Chosen {
    // Whether a packet with this verdict is chosen.
    pub(crate) fn takes(self, verdict: Verdict) -> bool
        ensures { result ≡ ChosenRecords.is_chosen self verdict }
    {
        match self {
            Chosen::Passing => verdict.passes(),
            Chosen::Dropped => !verdict.passes(),
        }
    }
}
