//! The decision of a packet on the value that its flow has in the table.
ghost use Rattle.std.specs.Prelude.{◌≡◌, ◌<◌};

use crate::session::Session;
use crate::timeouts::Timeouts;
use bihash_words::{Change, Patch};

/// What a packet does to its flow's session. It is made once, on whatever value is stored then.
///
/// A live session is touched. Otherwise a packet that `reflects` starts one, and any other value goes.
#[derive(Clone, Copy)]
pub struct PacketPatch {
    /// When the packet came, in seconds.
    pub moment: u32,
    /// The sender's side of the flow.
    pub side: u8,
    /// The packet's TCP flags, 0 where it is no TCP.
    pub flags: u8,
    /// Whether the packet is TCP.
    pub tcp: bool,
    /// Whether a reflecting rule decides and the packet may start a session.
    pub reflects: bool,
    pub times: Timeouts,
    pub ghost of_two: { side < 2 },
}

impl PacketPatch {
    ghost use Rattle.bihash_words.specs.Patches.{IsStorable};
    ghost use Rattle.bihash_words.specs.declared.patch.Change.TheVariants.{Set};
    ghost use Rattle.session_state.specs.Decisions.{live_session, passed_session, patch_facts};
    ghost use Rattle.session_state.specs.Sessions.{session_word};

    /// The session that lets the packet through: that of the stored value, where it is live at the
    /// packet's moment.
    #[inline]
    pub fn live_session(&self, old: Option<u64>) -> Option<Session>
        ensures { result ≡ live_session (patch_facts self.now) old }
    {
        let session = Session::from_word(old?)?;
        if session.live_at(self.moment, &self.times) {
            return Some(session);
        }
        None
    }

    /// What becomes of a live session.
    #[inline]
    pub fn touch(&self, session: Session) -> Change
        ensures value { result ≡ Set (session_word (passed_session (patch_facts self.now) session)) }
        ensures storable { IsStorable result }
    {
        let next = session.touched(self.moment, self.side, self.flags);
        Change::Set(next.word())
    }
}

impl Patch for PacketPatch {
    ghost use Rattle.bihash_words.specs.Patches.{IsStorable};
    ghost use Rattle.bihash_words.specs.declared.patch.Change.{Change};
    ghost use Rattle.session_state.specs.Decisions.{IsDecision, decision_of, patch_facts};

    ghost decision = { λ patch old. decision_of (patch_facts patch) old };

    fn decide(&self, old: Option<u64>) -> Change
        ensures decision { result ≡ decision_of (patch_facts self.now) old }
        ensures storable { IsStorable result }
        ensures rule { IsDecision (patch_facts self.now) old result }
        ensures only { (change : Change) → IsDecision (patch_facts self.now) old change → change ≡ result }
    {
        if let Some(session) = self.live_session(old) {
            return self.touch(session);
        }
        if self.reflects {
            let session = Session::new(self.moment, self.side, self.flags, self.tcp);
            return Change::Set(session.word());
        }
        match old {
            Some(_) => Change::Remove,
            None => Change::Keep,
        }
    }
}
