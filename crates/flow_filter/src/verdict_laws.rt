//! What follows of the definitions, for all packets at once.
//!
//! The functions do nothing: their contracts are the laws.
ghost use Rattle.std.specs.Prelude.{◌≡◌, ◌⊎◌, ◌↔◌, ◌++◌, ℕ, true, List, [], ◌∷◌, Some, None, All};
ghost use Rattle.packet_view.specs.Captures.{PacketFacts};
ghost use Rattle.packet_view.specs.Tuples.{TupleFacts};
ghost use Rattle.acl_policy.specs.Policies.{PolicyFacts};
ghost use Rattle.bihash_words.specs.Maps.{Bounds, Event, Pairs, IsEvent};
ghost use Rattle.session_state.specs.declared.timeouts.Timeouts.{Timeouts};
ghost use Rattle.session_state.specs.declared.verdict.Verdict.{Verdict};
ghost use Rattle.session_state.specs.declared.verdict.Verdict.TheVariants.{Full};
ghost use Rattle.flow_filter.specs.Apart.{HasKeyNumber, TookNoPlaceOf, WasTaken, packets_of, those_of};
ghost use Rattle.flow_filter.specs.Judged.{Asks, IsAsked, IsEventOf, Judged, readings_of, verdict_on, verdict_with};
ghost use Rattle.flow_filter.specs.OneThread.{AreVerdicts, Home, IsOneThread, Layout, bounds_in, home_of};
ghost use Rattle.flow_filter.specs.Passing.{FindsNoRoom, HoldsLive, IsPermitting, Leave, LetsThrough, MakesRoom};
ghost use Rattle.flow_filter.specs.Readings.{AreReadings, IsReading, Reading, Ruled, Ruling};
ghost use Rattle.flow_filter.specs.Updates.{Update, update_of};
ghost use Rattle.session_state.specs.Passes.{passes};

/// A policy reads each packet, and in one way.
pub fn each_packet_has_one_reading()
    ensures some { (policy : PolicyFacts) (packet : PacketFacts) → (reading : Reading) × IsReading policy packet reading }
    ensures one { (policy : PolicyFacts) (packet : PacketFacts) (a b : Reading)
        → IsReading policy packet a → IsReading policy packet b → a ≡ b }
    ensures list { (policy : PolicyFacts) (packets : List PacketFacts)
        → (readings : List Reading) × AreReadings policy packets readings }
    ensures one_list { (policy : PolicyFacts) (packets : List PacketFacts) (a b : List Reading)
        → AreReadings policy packets a → AreReadings policy packets b → a ≡ b }
{}

/// Packets that are judged one after the other are judged in one way: their readings and what the buckets
/// hold at first give the event of each, and so its verdict.
pub fn each_list_is_judged_once()
    ensures some { (l : Layout) (times : Timeouts) (opening : Home → Pairs) (readings : List Reading)
        → (js : List Judged) × (readings_of js ≡ readings) × IsOneThread l times opening js }
    ensures one { (l : Layout) (times : Timeouts) (opening : Home → Pairs) (js ks : List Judged) → readings_of js ≡ readings_of ks
        → IsOneThread l times opening js → IsOneThread l times opening ks → js ≡ ks }
{}

/// The packets of a capture have one list of verdicts.
pub fn each_capture_has_one_list_of_verdicts()
    ensures some { (l : Layout) (times : Timeouts) (policy : PolicyFacts) (packets : List PacketFacts)
        → (verdicts : List Verdict) × AreVerdicts l times policy packets verdicts }
    ensures one { (l : Layout) (times : Timeouts) (policy : PolicyFacts) (packets : List PacketFacts) (a b : List Verdict)
        → AreVerdicts l times policy packets a → AreVerdicts l times policy packets b → a ≡ b }
{}

/// A packet passes exactly where a session of its flow is live in its bucket, or the first rule that matches
/// lets it through: it permits, or it reflects and the session is there that the packet may start. A packet
/// without a flow passes exactly where that rule permits or reflects.
pub fn packets_pass_by_rule_or_session()
    ensures flow { (times : Timeouts) (moment : ℕ) (tuple : TupleFacts) (ruling : Ruling) (u : Update) (b : Bounds) (m n : Pairs)
        (w : ℕ) (e : Event) → update_of times (Ruled moment tuple ruling) ≡ Some u → IsEventOf u e → IsEvent b m w e n
        → (passes (verdict_with (Ruled moment tuple ruling) (Asks u e)) ≡ true) ↔ (HoldsLive u m ⊎ LetsThrough u n ruling) }
    ensures no_flow { (times : Timeouts) (moment : ℕ) (tuple : TupleFacts) (ruling : Ruling) (j : Judged) → IsAsked times j
        → j.reading ≡ Ruled moment tuple ruling → update_of times j.reading ≡ None
        → (passes (verdict_on j) ≡ true) ↔ IsPermitting ruling }

    // What the bucket holds is what the packets before it left there.
    ensures in_order { (l : Layout) (times : Timeouts) (opening : Home → Pairs) (before after : List Judged)
        (j : Judged) (moment : ℕ) (tuple : TupleFacts) (ruling : Ruling) (u : Update)
        → IsOneThread l times opening (before ++ j ∷ after) → j.reading ≡ Ruled moment tuple ruling
        → update_of times j.reading ≡ Some u → (m n : Pairs)
        × Leave l opening before (home_of l u.key) m × Leave l opening (before ++ j ∷ []) (home_of l u.key) n
        × ((passes (verdict_on j) ≡ true) ↔ (HoldsLive u m ⊎ LetsThrough u n ruling)) }
{}

/// A packet gets the verdict `full` exactly where it would start a session and its bucket, which may still change, has
/// its most sessions, all of which are live and none of which is of its flow.
pub fn full_buckets_hold_live_sessions()
    ensures flow { (times : Timeouts) (moment : ℕ) (tuple : TupleFacts) (ruling : Ruling) (u : Update) (b : Bounds) (m n : Pairs)
        (w : ℕ) (e : Event) → update_of times (Ruled moment tuple ruling) ≡ Some u → IsEventOf u e → IsEvent b m w e n
        → (verdict_with (Ruled moment tuple ruling) (Asks u e) ≡ Full) ↔ FindsNoRoom u b m w }
    ensures in_order { (l : Layout) (times : Timeouts) (opening : Home → Pairs) (before after : List Judged)
        (j : Judged) (moment : ℕ) (tuple : TupleFacts) (ruling : Ruling) (u : Update)
        → IsOneThread l times opening (before ++ j ∷ after) → j.reading ≡ Ruled moment tuple ruling
        → update_of times j.reading ≡ Some u → (m : Pairs) × (left : Leave l opening before (home_of l u.key) m)
        × ((verdict_on j ≡ Full) ↔ FindsNoRoom u (bounds_in l (home_of l u.key).family) m left.0) }
{}

/// Where the filter starts a packet's session in a full bucket, this takes the place of one that isn't live at the
/// packet's moment, and of those the one with the least key.
pub fn only_expired_sessions_make_room()
    ensures { (u : Update) (b : Bounds) (m n : Pairs) (w : ℕ) (e : Event) (gone : List ℕ) → IsEventOf u e
        → IsEvent b m w e n → e.recycling.removed ≡ Some gone → MakesRoom u m gone }
{}

/// Packets of different interfaces never change each other's verdict but by a full bucket or a worn one: where no
/// packet of an interface is refused, and no session of it makes room for another, its packets get the verdicts that
/// they would get alone.
pub fn interfaces_are_apart()
    ensures { (l : Layout) (times : Timeouts) (policy : PolicyFacts) (packets : List PacketFacts) (interface : ℕ)
        (verdicts alone : List Verdict) → All HasKeyNumber packets → (all : AreVerdicts l times policy packets verdicts)
        → All WasTaken (those_of interface packets all.judged) → All (TookNoPlaceOf interface) all.judged
        → AreVerdicts l times policy (packets_of interface packets) alone
        → alone ≡ those_of interface packets verdicts }
{}
