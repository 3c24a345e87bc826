//! What the definitions of an input and its report say of all bytes at once.
ghost use Rattle.std.specs.Prelude.{◌≡◌, ◌⊎◌, ◌+◌, ◌≤◌, false, true, ℕ, List, Option, length};
ghost use Rattle.packet_view.specs.Bytes.{AreBytes};
ghost use Rattle.session_state.specs.declared.timeouts.Timeouts.{Timeouts};
ghost use Rattle.session_state.specs.declared.verdict.Verdict.{Verdict};
ghost use Rattle.packet_view.specs.Captures.{PacketFacts};
ghost use Rattle.acl_policy.specs.Policies.{PolicyFacts};
ghost use Rattle.flow_filter.specs.OneThread.{Layout};
ghost use Rattle.flow_dealing.specs.WorkerRecords.{AreUntil, HavePages};
ghost use Rattle.racl_options.specs.declared.settings.Options.{Options};
ghost use Rattle.racl_options.specs.declared.settings.TableSize.{TableSize};
ghost use Rattle.capture_shards.specs.Shards.{Own, own_packets};
ghost use Rattle.racl_io.specs.declared.fault.Fault.{Fault};
ghost use Rattle.racl_io.specs.declared.totals_and_truncation.Totals.{Totals};
ghost use Rattle.racl_io.specs.Faults.{IsInputFault};
ghost use Rattle.racl_io.specs.Inputs.{most_bytes};
ghost use Rattle.racl_io.specs.declared.capture_bytes.CaptureBytes.{CaptureBytes};
ghost use Rattle.racl_report.specs.InterfaceInputs.{AreAllBytes, IsFaultApart, bytes_in};
ghost use Rattle.racl_report.specs.declared.interface_captures.PlacedFault.{PlacedFault};
ghost use Rattle.racl_runs.specs.InterfaceRuns.{HasOutcomeApart};
ghost use Rattle.racl_runs.specs.LiveRuns.{IsToldBehind};
ghost use Rattle.racl_runs.specs.Runs.{AgeInTime, HasOutcome, HasRun, ages_in, keeps_stored, layout_for};
ghost use Rattle.racl_report.specs.RunReports.{Outcome};
ghost use Rattle.racl_runs.specs.StoredRuns.{AreLeftByOneThread, AreLiveByOneThread};
ghost use Rattle.racl_views.specs.Hits.{latest_second};
ghost use Rattle.racl_views.specs.Stored.{StoredFacts};

/// All bytes are an input whose run has one outcome, that of the one-thread filter, or have one fault, and never both.
pub fn each_input_has_one_outcome()
    ensures some { (size : TableSize) (times : Timeouts) (bytes : List ℕ) → ((outcome : Outcome) × HasOutcome size times bytes outcome)
        ⊎ ((fault : Fault) × IsInputFault bytes fault) }
    ensures one { (size : TableSize) (times : Timeouts) (bytes : List ℕ) (outcome other : Outcome) → AreBytes bytes
        → HasOutcome size times bytes outcome → HasOutcome size times bytes other → outcome ≡ other }
    ensures fault { (bytes : List ℕ) (fault other : Fault) → AreBytes bytes
        → IsInputFault bytes fault → IsInputFault bytes other → fault ≡ other }
    ensures apart { (size : TableSize) (times : Timeouts) (bytes : List ℕ) (outcome : Outcome) (fault : Fault) → AreBytes bytes
        → HasOutcome size times bytes outcome → IsInputFault bytes fault → ⊥ }
{}

/// Captures of interfaces that come apart, behind a policy's text, within what an input may have, are an input whose run has one
/// outcome, that of the one-thread filter, or have one fault, and never both.
pub fn interfaces_have_one_outcome()
    ensures some { (size : TableSize) (times : Timeouts) (text : List ℕ) (captures : List CaptureBytes) → length text + bytes_in captures ≤ most_bytes
        → ((outcome : Outcome) × HasOutcomeApart size times text captures outcome) ⊎ ((found : PlacedFault) × IsFaultApart text captures found) }
    ensures one { (size : TableSize) (times : Timeouts) (text : List ℕ) (captures : List CaptureBytes) (outcome other : Outcome) → AreAllBytes captures
        → HasOutcomeApart size times text captures outcome → HasOutcomeApart size times text captures other → outcome ≡ other }
    ensures fault { (text : List ℕ) (captures : List CaptureBytes) (found other : PlacedFault) → AreAllBytes captures
        → IsFaultApart text captures found → IsFaultApart text captures other → found ≡ other }
    ensures apart { (size : TableSize) (times : Timeouts) (text : List ℕ) (captures : List CaptureBytes) (outcome : Outcome) (found : PlacedFault)
        → AreAllBytes captures → HasOutcomeApart size times text captures outcome → IsFaultApart text captures found → ⊥ }
{}

/// The sessions that are told of a run that doesn't age are those that the one-thread filter leaves, where no verdict says
/// no-pages.
pub fn told_sessions_are_those_of_one_thread()
    ensures { (options : Options) (given old new : Option (List ℕ)) (totals : Totals) (run : HasRun options given old new totals)
        → ages_in options ≡ false → HavePages run.outcome.verdicts → keeps_stored options ≡ true
        → AreLeftByOneThread (layout_for options.tables) options.times run.policy run.packets run.outcome.verdicts run.stored }
{}

/// The sessions that are told of a run that ages are those that the one-thread filter leaves, which removes none, and that are live
/// at the latest second of any packet, in the order of their keys, where no verdict says no-pages and ageing is in time. So they
/// are of a run that tells packets while they come, and of a shard, at the latest second of its whole capture.
pub fn told_live_sessions_are_those_of_one_thread()
    ensures run { (options : Options) (given old new : Option (List ℕ)) (totals : Totals) (run : HasRun options given old new totals)
        → ages_in options ≡ true → HavePages run.outcome.verdicts → AgeInTime run.by_workers → keeps_stored options ≡ true
        → AreLiveByOneThread (layout_for options.tables) options.times (latest_second run.packets) run.policy run.packets run.outcome.verdicts run.stored }
    ensures behind { (options : Options) (text : List ℕ) (policy : PolicyFacts) (packets : List PacketFacts) (verdicts : List Verdict) (latest : ℕ) (behind : List ℕ)
        (is : IsToldBehind options text policy packets verdicts latest behind) → ages_in options ≡ true → HavePages verdicts
        → AgeInTime is.by_live.by_workers → AreUntil latest packets → keeps_stored options ≡ true
        → AreLiveByOneThread (layout_for options.tables) options.times latest policy packets verdicts is.stored }
    ensures until { (packets : List PacketFacts) → AreUntil (latest_second packets) packets }
    ensures own { (own : Own) (packets : List PacketFacts) → AreUntil (latest_second packets) (own_packets own 1 packets) }
{}

/// There is one listing of such sessions of an input, whatever the number of workers and however their run tells packets.
pub fn live_sessions_have_one_listing()
    ensures { (l : Layout) (times : Timeouts) (latest : ℕ) (policy : PolicyFacts) (packets : List PacketFacts) (verdicts others : List Verdict)
        (told other : StoredFacts) → AreLiveByOneThread l times latest policy packets verdicts told
        → AreLiveByOneThread l times latest policy packets others other → told ≡ other }
{}
