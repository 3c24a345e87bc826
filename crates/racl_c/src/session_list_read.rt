//! The sessions of a table that was closed, one by one.
ghost use Rattle.std.specs.Prelude.{◌≡◌, ◌*◌, ◌+◌, ◌^◌, slice_get};
ghost use Rattle.std.specs.Int.{to_be_bytes, w32};
ghost use Rattle.racl_c.specs.Sessions;
ghost use Rattle.racl_c.specs.Sessions.{IsGiven, padded, pair_count, stored_session, told_of_pair};
ghost use Rattle.racl_views.specs.SessionLines as line;
ghost use Rattle.session_state.specs.Sessions.{live_until};

use crate::stored_session::{StoredEnd, StoredSession};
use session_state::{Session, Timeouts};

/// The pairs of a closed table, by the family of its flows.
#[derive(Drop)]
pub enum ClosedPairs {
    Four(Vec<([u64; 2], u64)>),
    Six(Vec<([u64; 5], u64)>),
}

/// The pairs of a closed table, and how long its sessions live.
#[derive(Drop)]
pub struct SessionList {
    pub times: Timeouts,
    pub pairs: ClosedPairs,
}

// The bytes of an address of IPv4, and zeros behind them.
fn four_bytes(address: u32) -> [u8; 16]
    ensures { result ≡ padded (to_be_bytes w32 address) }
{
    let bytes = address.to_be_bytes();
    [
        bytes[0], bytes[1], bytes[2], bytes[3], 0, 0, 0, 0, 0, 0, 0, 0, 0, 0, 0, 0,
    ]
}

// An address of IPv6 by its halves.
fn address_of(upper: u64, lower: u64) -> u128
    ensures { result ≡ upper * 2 ^ 64 + lower }
{
    (u128::from(upper) << 64) + u128::from(lower)
}

// The last second in which a session is live.
fn live_until_second(times: &Timeouts, session: &Session) -> u64
    ensures { result ≡ live_until session.now times.now }
{
    u64::from(session.last()) + u64::from(session.timeout(times))
}

// A session of the flow with this key of IPv4.
fn four_session(times: &Timeouts, key: [u64; 2], session: &Session) -> StoredSession
    ensures { result ≡ stored_session times.now (line.four_flow key) session.now }
{
    let [ends, word] = key;
    StoredSession {
        until: live_until_second(times, session),
        last: session.last(),
        interface_number: (word % (1 << 8)) as u8,
        family: 4,
        protocol: ((word >> 24) % (1 << 8)) as u8,
        first: StoredEnd {
            address: four_bytes((ends >> 32) as u32),
            port: (word >> 48) as u16,
            flags: session.flags_seen(0),
        },
        second: StoredEnd {
            address: four_bytes((ends % (1 << 32)) as u32),
            port: ((word >> 32) % (1 << 16)) as u16,
            flags: session.flags_seen(1),
        },
    }
}

// A session of the flow with this key of IPv6.
fn six_session(times: &Timeouts, key: [u64; 5], session: &Session) -> StoredSession
    ensures { result ≡ stored_session times.now (line.six_flow key) session.now }
{
    let [first, first_lower, second, second_lower, word] = key;
    StoredSession {
        until: live_until_second(times, session),
        last: session.last(),
        interface_number: (word % (1 << 8)) as u8,
        family: 6,
        protocol: ((word >> 24) % (1 << 8)) as u8,
        first: StoredEnd {
            address: address_of(first, first_lower).to_be_bytes(),
            port: (word >> 48) as u16,
            flags: session.flags_seen(0),
        },
        second: StoredEnd {
            address: address_of(second, second_lower).to_be_bytes(),
            port: ((word >> 32) % (1 << 16)) as u16,
            flags: session.flags_seen(1),
        },
    }
}

// What is told of a pair of IPv4, where there is one. `None` too where its word is no session's, which no packet stores.
fn four_told(times: &Timeouts, pair: Option<([u64; 2], u64)>) -> Option<StoredSession>
    ensures { result ≡ told_of_pair times.now line.four_flow pair }
{
    let (key, word) = pair?;
    match Session::from_word(word) {
        Some(session) => Some(four_session(times, key, &session)),
        None => None,
    }
}

// What is told of a pair of IPv6.
fn six_told(times: &Timeouts, pair: Option<([u64; 5], u64)>) -> Option<StoredSession>
    ensures { result ≡ told_of_pair times.now line.six_flow pair }
{
    let (key, word) = pair?;
    match Session::from_word(word) {
        Some(session) => Some(six_session(times, key, &session)),
        None => None,
    }
}

// The pair at a place, counted from 0.
fn pair_at<const N: usize>(pairs: &[([u64; N], u64)], at: u64) -> Option<([u64; N], u64)>
    ensures { result ≡ slice_get pairs.now at }
{
    match pairs.get(at as usize) {
        Some(pair) => Some(*pair),
        None => None,
    }
}

impl SessionList {
    /// How many pairs the table had.
    pub fn count(&self) -> u64
        ensures { result ≡ pair_count self.now.pairs }
    {
        match &self.pairs {
            ClosedPairs::Four(pairs) => pairs.len() as u64,
            ClosedPairs::Six(pairs) => pairs.len() as u64,
        }
    }

    /// The session at a place, counted from 0. `None` behind the last.
    pub fn session(&self, at: u64) -> Option<StoredSession>
        ensures { result ≡ Sessions.session_at self.now.times self.now.pairs at }
    {
        match &self.pairs {
            ClosedPairs::Four(pairs) => four_told(&self.times, pair_at(pairs, at)),
            ClosedPairs::Six(pairs) => six_told(&self.times, pair_at(pairs, at)),
        }
    }
}

impl StoredSession {
    /// Becomes the session that was found, and tells whether there was one: 1 or 0.
    pub(crate) fn give(&mut self, found: Option<StoredSession>) -> u32
        ensures { IsGiven found self.old self.new result }
    {
        let Some(session) = found else {
            return 0;
        };
        *self = session;
        1
    }
}
