//! What is kept of a flow, and its form as the value of a table.
ghost use Rattle.std.specs.Prelude.{◌≡◌, ◌<◌, ◌↔◌, IsTrue, Some, IfSome};
ghost use Rattle.session_state.specs.Flags.{IsKept};
ghost use Rattle.session_state.specs.Sessions.{SessionFacts, IsSession, IsLive, flags_seen, new_session, session_of, session_word, timeout_of, touched_session, with_flags};

use crate::session_flags::{joined, kept};
use crate::timeouts::Timeouts;
use std::marker::Model;

/// SYN and ACK.
const SYN_AND_ACK: u8 = 0x12;

/// What is kept of a flow: the moment of its last packet and the TCP flags seen of either side.
#[derive(Clone, Copy, Debug, PartialEq, Eq)]
pub struct Session {
    last: u32,
    first_flags: u8,
    second_flags: u8,
    tcp: bool,
}

impl Model for Session {
    ghost Value = { SessionFacts };

    ghost view = { λ s. record { last = s.last; first_flags = s.first_flags; second_flags = s.second_flags; tcp = s.tcp } };

    ghost invariant = { λ s. IsKept s.first_flags × IsKept s.second_flags };

    ghost inverse = { λ s. record { last = s.last; first_flags = s.first_flags; second_flags = s.second_flags; tcp = s.tcp } };
}

impl Session {
    /// The session that a packet starts, at a moment in seconds, from side 0 or 1.
    pub fn new(moment: u32, side: u8, flags: u8, tcp: bool) -> Session
        requires { side < 2 }
        ensures { result ≡ new_session moment side flags tcp }
    {
        let none_seen = Session {
            last: moment,
            first_flags: 0,
            second_flags: 0,
            tcp,
        };
        none_seen.with_flags(side, flags)
    }

    /// The session after one more packet. An earlier moment than the last one leaves that.
    pub fn touched(&self, moment: u32, side: u8, flags: u8) -> Session
        requires { side < 2 }
        ensures { result ≡ touched_session self.now moment side flags }
    {
        let moved = Session {
            last: self.last.max(moment),
            ..*self
        };
        moved.with_flags(side, flags)
    }

    fn with_flags(self, side: u8, flags: u8) -> Session
        ensures { result ≡ with_flags self side flags }
    {
        let flags = kept(flags);
        if side == 0 {
            Session {
                first_flags: joined(self.first_flags, flags),
                ..self
            }
        } else {
            Session {
                second_flags: joined(self.second_flags, flags),
                ..self
            }
        }
    }

    /// The word that stands for the session in a table.
    pub fn word(self) -> u64
        ensures word { result ≡ session_word self }
        ensures session { IsSession self }
    {
        u64::from(self.last)
            + (u64::from(self.first_flags) << 32)
            + (u64::from(self.second_flags) << 40)
            + (u64::from(self.tcp) << 48)
    }

    /// The session that a word stands for, `None` where it stands for no session.
    pub fn from_word(word: u64) -> Option<Session>
        ensures value { result ≡ session_of word }
        ensures found { IfSome result (λ session. IsSession session × (session_word session ≡ word)) }
        ensures only { (session : SessionFacts) → IsSession session → session_word session ≡ word
            → result ≡ Some session }
    {
        let last = (word & 0xffff_ffff) as u32;
        let first_flags = ((word >> 32) & 0xff) as u8;
        let second_flags = ((word >> 40) & 0xff) as u8;
        let kind = word >> 48;
        if kind > 1 || kept(first_flags) != first_flags || kept(second_flags) != second_flags {
            return None;
        }
        Some(Session {
            last,
            first_flags,
            second_flags,
            tcp: kind == 1,
        })
    }

    /// The moment of the last packet, in seconds.
    pub fn last(&self) -> u32
        ensures { result ≡ self.now.last }
    {
        self.last
    }

    /// The flags seen of side 0 or 1.
    pub fn flags_seen(&self, side: u8) -> u8
        requires { side < 2 }
        ensures { result ≡ flags_seen self.now side }
    {
        if side == 0 {
            self.first_flags
        } else {
            self.second_flags
        }
    }

    /// How many seconds the session outlives its last packet.
    pub fn timeout(&self, times: &Timeouts) -> u32
        ensures { result ≡ timeout_of self.now times.now }
    {
        // All three are read at once, so that no branch depends on which one is wanted.
        let Timeouts {
            established,
            transient,
            udp,
            ..
        } = *times;
        if !self.tcp {
            return udp;
        }
        if self.first_flags == SYN_AND_ACK && self.second_flags == SYN_AND_ACK {
            return established;
        }
        transient
    }

    /// Whether the session is live at a moment in seconds: the last second of its timeout counts.
    pub fn live_at(&self, moment: u32, times: &Timeouts) -> bool
        ensures { IsTrue result ↔ IsLive self.now times.now moment }
    {
        u64::from(moment) <= u64::from(self.last) + u64::from(self.timeout(times))
    }
}
