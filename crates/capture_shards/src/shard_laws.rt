//! What the verdicts on the packets of shards mean for those on all packets.
//!
//! The functions do nothing: their contracts are the laws.
ghost use Rattle.std.specs.Prelude.{◌≡◌, ◌≤◌, ℕ, List};
ghost use Rattle.packet_view.specs.Captures.{PacketFacts};
ghost use Rattle.acl_policy.specs.Policies.{PolicyFacts};
ghost use Rattle.session_state.specs.declared.timeouts.Timeouts.{Timeouts};
ghost use Rattle.session_state.specs.declared.verdict.Verdict.{Verdict};
ghost use Rattle.flow_filter.specs.OneThread.{AreVerdicts, Layout};
ghost use Rattle.capture_shards.specs.Shards.{AddUp, AreMerged, AreOwns, AreShardVerdicts, IsOwnOf, Own, own_in, own_packets};

/// The verdicts of the one-thread filter on a shard's packets alone are those that it gives to them among all packets.
pub fn a_shard_is_judged_as_in_the_whole()
    ensures alone { (l : Layout) (times : Timeouts) (policy : PolicyFacts) (packets : List PacketFacts) (count shard : ℕ) (own : Own) (verdicts : List Verdict)
        → IsOwnOf l count shard own → AreVerdicts l times policy packets verdicts
        → AreVerdicts l times policy (own_packets own 1 packets) (own_in own 1 packets verdicts) }
    ensures one { (l : Layout) (times : Timeouts) (policy : PolicyFacts) (packets : List PacketFacts) (count shard : ℕ) (own : Own) (verdicts said : List Verdict)
        → IsOwnOf l count shard own → AreVerdicts l times policy packets verdicts
        → AreVerdicts l times policy (own_packets own 1 packets) said → said ≡ own_in own 1 packets verdicts }
{}

/// The verdicts of the one-thread filter on the packets of each shard alone, put back at the places of their packets, are those on
/// all packets; they can be put back so; and of these the totals are those of all shards, added up.
pub fn shards_give_one_report()
    ensures merged { (l : Layout) (times : Timeouts) (policy : PolicyFacts) (packets : List PacketFacts) (count : ℕ) (owns : ℕ → Own) (said : ℕ → List Verdict) (verdicts : List Verdict)
        → 1 ≤ count → AreOwns l count owns → AreShardVerdicts l times policy packets count owns said
        → AreMerged packets count owns said verdicts → AreVerdicts l times policy packets verdicts }
    ensures some { (l : Layout) (times : Timeouts) (policy : PolicyFacts) (packets : List PacketFacts) (count : ℕ) (owns : ℕ → Own) (said : ℕ → List Verdict)
        → 1 ≤ count → AreOwns l count owns → AreShardVerdicts l times policy packets count owns said
        → (verdicts : List Verdict) × AreMerged packets count owns said verdicts }
    ensures totals { (l : Layout) (packets : List PacketFacts) (count : ℕ) (owns : ℕ → Own) (said : ℕ → List Verdict) (verdicts : List Verdict)
        → 1 ≤ count → AreOwns l count owns → AreMerged packets count owns said verdicts → AddUp count said verdicts }
{}
