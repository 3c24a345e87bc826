//! What follows from the definitions, for every flow, session and decision. The functions do nothing: their contracts are the laws.
ghost use Rattle.std.specs.Prelude.{◌≡◌, ◌≢◌, ◌≤◌, ◌+◌, ◌↔◌, ℕ, Option, Some, not, true, false};
ghost use Rattle.bihash_words.specs.declared.patch.Change.{Change};
ghost use Rattle.bihash_words.specs.declared.patch.Change.TheVariants.{Set};
ghost use Rattle.packet_view.specs.Tuples.{TupleFacts};
ghost use Rattle.session_state.specs.Decisions.{IsDecision, IsLiveFor, PatchFacts, decision_of, is_live_for};
ghost use Rattle.session_state.specs.Flows.{IsEchoReply, IsFlow, flow_of};
ghost use Rattle.session_state.specs.Sessions.{IsLive, IsSession, SessionFacts, is_expired_at, session_of, session_word, timeout_of, touched_session};
ghost use Rattle.session_state.specs.declared.flow.Flow.{Flow};
ghost use Rattle.session_state.specs.declared.timeouts.Timeouts.{Timeouts};

/// The flow and the decision on a session that are computed are those that the definitions name, and no other is, for
/// all facts.
pub fn computations_meet_definitions()
    ensures flow { (packet : TupleFacts) (flow : Flow) → (flow_of packet ≡ Some flow) ↔ IsFlow packet flow }
    ensures decision { (packet : PatchFacts) (old : Option ℕ) (change : Change)
        → (change ≡ decision_of packet old) ↔ IsDecision packet old change }
{}

/// An echo reply may not start a session, and a packet that doesn't reflect sets no value where no
/// session is live.
pub fn replies_start_nothing()
    ensures reply { (a : TupleFacts) (f : Flow) → IsFlow a f → IsEchoReply a → f.starts ≡ false }
    ensures none_set { (p : PatchFacts) (old : Option ℕ) (word : ℕ) → p.reflects ≡ false
        → is_live_for p old ≡ false → decision_of p old ≢ Set word }
{}

/// A session has one word, and a word at most one session.
#[tactic(auto, using(crate::proofs::SessionLemmas::session_of_word, crate::proofs::SessionLemmas::word_of_session))]
pub fn words_tell_sessions()
    ensures word { (s : SessionFacts) → IsSession s → session_of (session_word s) ≡ Some s }
    ensures session { (word : ℕ) (s : SessionFacts) → session_of word ≡ Some s
        → IsSession s × (session_word s ≡ word) }
{}

/// A session is live in the last second of its timeout, and not in the next.
pub fn last_second_counts()
    ensures last { (s : SessionFacts) (times : Timeouts) → IsLive s times (s.last + timeout_of s times) }
    ensures next { (s : SessionFacts) (times : Timeouts) → IsLive s times (s.last + timeout_of s times + 1) → ⊥ }
{}

/// The last moment of a session never falls: a packet of an earlier moment leaves it.
pub fn last_never_falls()
    ensures earlier { (s : SessionFacts) (moment side flags : ℕ) → moment ≤ s.last
        → (touched_session s moment side flags).last ≡ s.last }
    ensures later { (s : SessionFacts) (moment side flags : ℕ) → s.last ≤ moment
        → (touched_session s moment side flags).last ≡ moment }
{}

/// The test for a live session tells whether the value is one's word.
#[tactic(auto, using(crate::proofs::LiveLemmas::live_told))]
pub fn tests_tell_live_sessions()
    ensures { (packet : PatchFacts) (old : Option ℕ)
        → (is_live_for packet old ≡ true) ↔ ((session : SessionFacts) × IsLiveFor packet old session) }
{}

/// A stored word is expired exactly where it is no live session for a packet of that moment.
#[tactic(auto, using(crate::proofs::ExpiryLemmas::expired_is_not_live))]
pub fn expired_words_are_not_live()
    ensures { (packet : PatchFacts) (word : ℕ)
        → is_expired_at packet.times packet.moment word ≡ not (is_live_for packet (Some word)) }
{}
