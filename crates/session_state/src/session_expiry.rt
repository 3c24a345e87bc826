//! Which stored sessions have ended by a moment.
ghost use Rattle.std.specs.Prelude.{◌≡◌, ◌<◌, ◌^◌};
ghost use Rattle.session_state.specs.Sessions.{is_expired_at};

use crate::session::Session;
use crate::timeouts::Timeouts;
use bihash_words::Expiry;

/// Which stored words are expired at a moment in seconds: each that is no session, and each session that isn't live then.
#[derive(Clone, Copy)]
pub struct SessionExpiry {
    pub moment: u32,
    pub times: Timeouts,
}

impl Expiry for SessionExpiry {
    ghost is_expired = { λ expiry word. is_expired_at expiry.times expiry.moment word };

    fn expired(&self, value: u64) -> bool
        ensures told { result ≡ is_expired_at self.now.times self.now.moment value }
        ensures word { value < 2 ^ 64 }
    {
        match Session::from_word(value) {
            Some(session) => !session.live_at(self.moment, &self.times),
            None => true,
        }
    }
}
