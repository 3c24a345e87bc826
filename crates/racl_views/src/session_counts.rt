//! The sessions that stand in tables, which of them are live, and how many were entered, let packets through, and have expired.
ghost use Rattle.std.specs.Prelude.{◌≡◌, IfOk, not};
ghost use Rattle.session_state.specs.Sessions.{is_expired_at};
ghost use Rattle.racl_views.specs.Hits.{live_among};
ghost use Rattle.racl_views.specs.Stored;
ghost use Rattle.racl_views.specs.Stored.{live_at, stored_facts};
ghost use Rattle.racl_views.specs.CountedSessions.{sessions_by};

use crate::hit_counts::HitCounts;
use session_state::{Session, Timeouts};
use std::alloc::{AllocError, Global};

/// How many sessions a run entered, how many packets they let through, and how many have expired.
#[derive(Clone, Copy)]
pub struct SessionCounts {
    pub entered: u64,
    pub matched: u64,
    pub expired: u64,
}

/// The pairs of the tables of both families: the words of a flow's key, and the word of its session. They are told
/// in this order.
#[derive(Drop)]
pub struct StoredPairs {
    pub four: Vec<([u64; 2], u64)>,
    pub six: Vec<([u64; 5], u64)>,
}

// Whether the session in this word is counted as live at a moment.
fn is_counted_live(times: &Timeouts, moment: u32, word: u64) -> bool
    ensures { result ≡ not (is_expired_at times.now moment word) }
{
    match Session::from_word(word) {
        Some(session) => session.live_at(moment, times),
        None => false,
    }
}

// How many of these sessions are live at a moment.
fn count_live_sessions<const N: usize>(
    times: &Timeouts,
    moment: u32,
    pairs: &[([u64; N], u64)],
) -> u64
    ensures { result ≡ live_among times.now moment pairs.now }
{
    let mut count = 0;
    'pairs: for pair in pairs {
        if is_counted_live(times, moment, pair.1) {
            count += 1;
        }
    }
    count
}

/// How many sessions packets entered, by their counts, how many packets they let through, and how many of those entered aren't
/// live any more at this second.
pub fn count_sessions(
    times: Timeouts,
    latest: u32,
    counts: &HitCounts,
    stored: &StoredPairs,
) -> SessionCounts
    ensures { result ≡ sessions_by times latest counts.now (stored_facts stored.now) }
{
    let entered = counts.entered;
    let four = count_live_sessions(&times, latest, &stored.four);
    let six = count_live_sessions(&times, latest, &stored.six);
    SessionCounts {
        entered,
        matched: counts.reasons.session,
        expired: entered.saturating_sub(four).saturating_sub(six),
    }
}

// The pairs among these whose sessions are live at a moment.
fn live_pairs<const N: usize>(
    alloc: Global,
    times: &Timeouts,
    moment: u32,
    pairs: &[([u64; N], u64)],
) -> Result<Vec<([u64; N], u64)>, AllocError>
    ensures { IfOk result (λ live. live.items ≡ Stored.live_pairs times.now moment pairs.now) }
{
    let mut live = Vec::new(alloc);
    'pairs: for pair in pairs {
        if is_counted_live(times, moment, pair.1) {
            live.push(*pair)?;
        }
    }
    Ok(live)
}

/// The sessions among these that are live at a moment, in their order. An `Err` says that memory ran out.
pub fn live_sessions(
    alloc: Global,
    times: &Timeouts,
    moment: u32,
    stored: &StoredPairs,
) -> Result<StoredPairs, AllocError>
    ensures { IfOk result (λ live. stored_facts live ≡ live_at times.now moment (stored_facts stored.now)) }
{
    let four = live_pairs(alloc, times, moment, &stored.four)?;
    let six = live_pairs(alloc, times, moment, &stored.six)?;
    Ok(StoredPairs { four, six })
}
