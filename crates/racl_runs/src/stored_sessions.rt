//! The sessions that stand in the tables when workers have ended, where these are told.
ghost use Rattle.std.specs.Prelude.{◌≡◌, true, IfOk};
ghost use Rattle.racl_views.specs.Stored.{stored_facts};
ghost use Rattle.racl_runs.specs.Crews.{AreIdleOf, size_of, views_with};
ghost use Rattle.racl_runs.specs.Runs;
ghost use Rattle.racl_runs.specs.Runs.{AreToldOf, layout_for};

use crate::sized_tables_and_workers::{SizedCallers, SizedTables, close_sized};
use racl_options::Options;
use racl_views::{StoredPairs, live_sessions};
use session_state::Timeouts;
use std::alloc::{AllocError, Global};

/// Whether what is told needs the sessions that are stored in the tables at the end.
pub fn keeps_stored(options: &Options) -> bool
    ensures { result ≡ Runs.keeps_stored options.now }
{
    options.hits || options.sessions
}

/// Which of the sessions that are stored in the tables are told.
#[derive(Clone, Copy)]
pub struct StoredAsked {
    /// Whether any are.
    pub asked: bool,
    /// Whether only those that are live at the latest second of any packet are.
    pub live: bool,
    pub times: Timeouts,
    pub latest: u32,
}

/// The sessions that are told of those that are stored in the tables, which end; or none.
pub fn stored_of(
    alloc: Global,
    which: StoredAsked,
    tables: SizedTables,
    callers: SizedCallers,
) -> Result<StoredPairs, AllocError>
    requires { AreIdleOf tables callers }
    ensures { IfOk result (λ s. which.asked ≡ true
        → AreToldOf (layout_for (size_of tables)) which.times which.live which.latest (views_with callers) (stored_facts s)) }
{
    if !which.asked {
        return Ok(StoredPairs {
            four: Vec::new(alloc),
            six: Vec::new(alloc),
        });
    }
    let stored = close_sized(alloc, tables, callers)?;
    if which.live {
        return live_sessions(alloc, &which.times, which.latest, &stored);
    }
    Ok(stored)
}
