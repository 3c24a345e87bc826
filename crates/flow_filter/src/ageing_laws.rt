//! What follows where sessions that have ended are removed between packets.
//!
//! The functions do nothing: their contracts are the laws.
ghost use Rattle.std.specs.Prelude.{◌≡◌, ◌≤◌, ◌++◌, ◌∷◌, [], false, ℕ, List, Some, All, length, map};
ghost use Rattle.std.specs.FinMap.{len};
ghost use Rattle.packet_view.specs.Captures.{PacketFacts};
ghost use Rattle.packet_view.specs.declared.tuple.Family.{Family};
ghost use Rattle.acl_policy.specs.Policies.{PolicyFacts};
ghost use Rattle.bihash_words.specs.Maps.{Pairs, most_pairs};
ghost use Rattle.bihash_words.specs.Runs.{IsRun};
ghost use Rattle.session_state.specs.declared.timeouts.Timeouts.{Timeouts};
ghost use Rattle.flow_filter.specs.Ageing.{HoldSameLive, IsAgedThread, IsOfExpired, IsUnworn, NeverFall, Removal, Step, moment_of, packets_in, steps_at};
ghost use Rattle.flow_filter.specs.Judged.{Judged, readings_of, verdicts_on};
ghost use Rattle.flow_filter.specs.OneThread.{AreVerdicts, Home, IsOneThread, Layout, bounds_in, events_at, nothing};
ghost use Rattle.flow_filter.specs.Readings.{AreReadings};
ghost use Rattle.flow_filter.specs.Updates.{Update};
ghost use Rattle.session_state.specs.Decisions.{is_live_for};
ghost use Rattle.session_state.specs.declared.verdict.Verdict.{Verdict};

/// Removing sessions that have ended between packets changes no verdict, where moments never fall, pages never run out
/// and no bucket is worn: the packets get the verdicts that they get where nothing is removed.
pub fn removing_ended_sessions_changes_no_verdict()
    ensures { (l : Layout) (times : Timeouts) (opening : Home → Pairs) (js : List Judged) (steps : List Step)
        → ((home : Home) → len (opening home) ≤ most_pairs (bounds_in l home.family))
        → IsOneThread l times opening js → IsAgedThread l times opening steps
        → readings_of (packets_in steps) ≡ readings_of js → All IsUnworn js → All IsUnworn (packets_in steps)
        → verdicts_on (packets_in steps) ≡ verdicts_on js }
{}

/// The verdicts of the one-thread filter are those of a filter that ages, where moments never fall, pages never run out,
/// and packets and removals are no more than the writes that a bucket may have.
pub fn ageing_filter_says_the_same()
    ensures { (l : Layout) (times : Timeouts) (policy : PolicyFacts) (packets : List PacketFacts) (verdicts : List Verdict)
        (steps : List Step) → AreVerdicts l times policy packets verdicts → IsAgedThread l times nothing steps
        → AreReadings policy packets (readings_of (packets_in steps))
        → ((family : Family) → length steps ≤ (bounds_in l family).limit)
        → verdicts_on (packets_in steps) ≡ verdicts }
{}

/// Removing sessions that have ended between packets takes none that is live at the end, where moments never fall, pages never
/// run out, and packets and removals are no more than the writes that a bucket may have: at the last moment, or a later one, each
/// bucket holds the live sessions that it holds where nothing is removed, and no other.
pub fn ageing_filter_keeps_what_is_live()
    ensures { (l : Layout) (times : Timeouts) (policy : PolicyFacts) (packets : List PacketFacts) (verdicts : List Verdict) (steps : List Step)
        (all : AreVerdicts l times policy packets verdicts) → IsAgedThread l times nothing steps
        → AreReadings policy packets (readings_of (packets_in steps)) → ((family : Family) → length steps ≤ (bounds_in l family).limit)
        → (moment : ℕ) → NeverFall 0 (map moment_of steps ++ Some moment ∷ []) → (home : Home) (last aged : Pairs) (writes aged_writes : ℕ)
        → IsRun (bounds_in l home.family) (nothing home) 0 (events_at l home all.judged) last writes
        → IsRun (bounds_in l home.family) (nothing home) 0 (steps_at l home steps) aged aged_writes → HoldSameLive times moment last aged }
{}

/// A session that was removed as one that has ended lets no packet through whose moment isn't before that: so, whoever
/// removes sessions and whenever, a packet finds what is live for it.
pub fn removed_sessions_are_live_for_no_later_packet()
    ensures { (times : Timeouts) (r : Removal) (u : Update) → IsOfExpired times r → u.patch.times ≡ times
        → r.moment ≤ u.patch.moment → is_live_for u.patch r.event.found ≡ false }
{}
