//! When a worker removes sessions that have ended, and how many of its buckets at once. No promise rests on it.
ghost use Rattle.std.specs.Prelude.{◌≡◌, ◌<◌, ◌/◌, nat_lt};
ghost use Rattle.flow_workers.specs.inner.AgeingTimes.{due_after, seconds_of_part, seconds_of_round};

use session_state::Timeouts;

// A round over all of a worker's buckets takes so many seconds of the packets' moments.
const ROUND: u64 = 512;
// It is made in so many parts, of which a packet looks at one where pages aren't short.
const PARTS: u64 = 64;

/// How often a worker ages, and which of its buckets come next.
#[derive(Clone, Copy, Debug)]
pub struct AgeingClock {
    /// The moment of the last ageing, in seconds.
    pub last: u64,
    /// From which moment on it ages next; beyond every moment where it doesn't.
    pub due: u64,
    /// From which bucket on it looks in the IPv4 table.
    pub four: usize,
    /// The same in the IPv6 table.
    pub six: usize,
}

impl AgeingClock {
    ghost use Rattle.std.specs.Prelude.{◌≡◌};
    ghost use Rattle.flow_workers.specs.inner.AgeingTimes.{first_due};

    /// That of a worker before its first packet.
    pub fn new(ages: bool) -> AgeingClock
        ensures begun { (result.last ≡ 0) × (result.four ≡ 0) × (result.six ≡ 0) }
        ensures due { result.due ≡ first_due ages }
    {
        AgeingClock {
            last: 0,
            due: if ages { 0 } else { u64::MAX },
            four: 0,
            six: 0,
        }
    }
}

/// Whether pages are short in a table of so many, where so many were never handed out.
pub fn are_short(unused: u64, pages: u64) -> bool
    ensures { result ≡ nat_lt unused (pages / 2) }
{
    unused < pages / 2
}

/// How many seconds a round takes: where pages are short, a quarter of the shortest timeout.
pub fn round_seconds(times: &Timeouts, short_of_pages: bool) -> u64
    ensures some { 0 < result }
    ensures seconds { result ≡ seconds_of_round times.now short_of_pages }
{
    if !short_of_pages {
        return ROUND;
    }
    let shortest = times.transient.min(times.udp).min(times.established);
    (u64::from(shortest) / 4).max(1)
}

/// How many seconds there are at least between two ageings, where a round takes so many.
pub fn part_seconds(round: u64) -> u64
    ensures { result ≡ seconds_of_part round }
{
    (round / PARTS).max(1)
}

/// How many of so many buckets a packet looks at, so many seconds after the last ageing: no more than one part, however long that
/// was, or where pages are short all after a round.
pub fn due_buckets(buckets: u64, elapsed: u64, times: &Timeouts, short_of_pages: bool) -> u64
    ensures { result ≡ due_after times.now short_of_pages buckets elapsed }
{
    let round = round_seconds(times, short_of_pages);
    let due = buckets.saturating_mul(elapsed).div_ceil(round);
    if short_of_pages {
        return due.min(buckets);
    }
    due.min(buckets.div_ceil(PARTS))
}
