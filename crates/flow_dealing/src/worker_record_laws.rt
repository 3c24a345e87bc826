//! What traces and records of all workers mean for the verdicts.
//!
//! The functions do nothing: their contracts are the laws.
ghost use Rattle.std.specs.Prelude.{◌≡◌, ◌⊎◌, ◌<◌, ◌≤◌, ℕ, Bool, List, All, length, map};
ghost use Rattle.packet_view.specs.Captures.{PacketFacts};
ghost use Rattle.packet_view.specs.declared.tuple.Family.{Family};
ghost use Rattle.acl_policy.specs.Policies.{PolicyFacts};
ghost use Rattle.bihash_words.specs.Maps.{Pairs};
ghost use Rattle.bihash_words.specs.Runs.{IsRun};
ghost use Rattle.bihash_steps.specs.BucketSteps.{map_now};
ghost use Rattle.session_state.specs.declared.timeouts.Timeouts.{Timeouts};
ghost use Rattle.session_state.specs.declared.verdict.Verdict.{Verdict};
ghost use Rattle.flow_filter.specs.Ageing.{HoldSameLive, Removal, Step};
ghost use Rattle.flow_filter.specs.OneThread.{AreVerdicts, Home, IsHome, bounds_in, events_at, nothing};
ghost use Rattle.flow_dealing.specs.declared.worker_of_flow.Dealing.TheVariants.{Bucket};
ghost use Rattle.flow_dealing.specs.Views.{Views, view_in};
ghost use Rattle.flow_dealing.specs.AgeingTraces.{AreAllDeeds, Deed, HaveDone, items_in};
ghost use Rattle.flow_dealing.specs.Dealings.{Deal};
ghost use Rattle.flow_dealing.specs.Traces.{ArePlaced};
ghost use Rattle.flow_dealing.specs.Places.{HaveOwnCalls, PassAtPlaces};
ghost use Rattle.flow_dealing.specs.WorkerRecords.{AreFew, AreFewBetween, AreInTimeOrder, AreJudged, AreJudgedAgeing, AreJudgedBetween, AreUntil, AreWithinHalf, AreWithinLimit, HasPagesIn, HavePages, IsByOwner, RemoveInTime};

/// Where each worker judged the packets that were dealt to it, and where workers age removed sessions that had ended between
/// them, each packet was judged once, and its event and each removal's are in the record of its worker, in one order of steps.
pub fn deeds_judge_each_packet()
    ensures { (d : Deal) (times : Timeouts) (ages : Bool) (policy : PolicyFacts) (packets : List PacketFacts)
        (all : List (List Deed)) (v : Views) (verdicts : List Verdict)
        → 0 < d.workers → AreAllDeeds d times ages policy packets all
        → ((family : Family) → HaveDone d family all (view_in v family))
        → ArePlaced packets (map items_in all) verdicts
        → AreJudgedAgeing d times ages policy packets verdicts v }
{}

/// By the records of all workers: with one worker, or where packets are dealt by bucket, and no verdict says that pages
/// were wanting, the verdicts are those of the one-thread filter.
pub fn workers_give_one_report()
    ensures { (d : Deal) (times : Timeouts) (policy : PolicyFacts) (packets : List PacketFacts)
        (verdicts : List Verdict)
        → AreJudged d times policy packets verdicts → (d.dealing ≡ Bucket) ⊎ (d.workers ≡ 1) → HavePages verdicts
        → AreVerdicts d.layout times policy packets verdicts }
{}

/// By the records of all workers who remove sessions that have ended: with one worker, or where packets are dealt by bucket,
/// where each session is removed by the worker of its bucket and moments never fall, where no verdict says that pages were
/// wanting and there are no more packets and removals than writes that a bucket may have, the verdicts are those of the
/// one-thread filter, which removes none. So they are where workers age, the packets' moments never fall, and packets and
/// removals are so few.
pub fn ageing_workers_give_one_report()
    ensures by_steps { (d : Deal) (times : Timeouts) (policy : PolicyFacts) (packets : List PacketFacts) (removals : List Removal)
        (verdicts : List Verdict) (are : AreJudgedBetween d times policy packets removals verdicts)
        → (d.dealing ≡ Bucket) ⊎ (d.workers ≡ 1) → HavePages verdicts → RemoveInTime d are.steps
        → AreVerdicts d.layout times policy packets verdicts }
    ensures by_workers { (d : Deal) (times : Timeouts) (ages : Bool) (policy : PolicyFacts) (packets : List PacketFacts)
        (verdicts : List Verdict) (v : Views) (are : AreJudgedAgeing d times ages policy packets verdicts v)
        → (d.dealing ≡ Bucket) ⊎ (d.workers ≡ 1) → HavePages verdicts → AreInTimeOrder packets
        → AreWithinLimit d packets are.removals → AreVerdicts d.layout times policy packets verdicts }
{}

/// By the records of all workers who age, with one worker or where packets are dealt by bucket, where no verdict says that pages were
/// wanting, the packets' moments never fall, and packets and removals are no more than the writes that a bucket may have: at the
/// latest moment of the packets, or a later one, each bucket's map, as all workers know it, holds the live sessions that the
/// one-thread filter, which removes none, leaves there, and no other that is live.
pub fn ageing_workers_keep_what_is_live()
    ensures { (d : Deal) (times : Timeouts) (ages : Bool) (policy : PolicyFacts) (packets : List PacketFacts)
        (verdicts : List Verdict) (v : Views) (are : AreJudgedAgeing d times ages policy packets verdicts v)
        → (d.dealing ≡ Bucket) ⊎ (d.workers ≡ 1) → HavePages verdicts → AreInTimeOrder packets
        → AreWithinLimit d packets are.removals → (moment : ℕ) → AreUntil moment packets
        → (all : AreVerdicts d.layout times policy packets verdicts) (home : Home) → IsHome d.layout home → (last : Pairs) (writes : ℕ)
        → IsRun (bounds_in d.layout home.family) (nothing home) 0 (events_at d.layout home all.judged) last writes
        → HoldSameLive times moment last (map_now (view_in v home.family) home.bucket) }
{}

/// By the records of all workers, with one worker or where packets are dealt by bucket, and where each session is removed by the worker
/// of its bucket: no more sessions are removed than there are packets, where twice as many packets are no more than the writes that
/// a bucket may have.
pub fn removals_are_at_most_packets()
    ensures { (d : Deal) (times : Timeouts) (policy : PolicyFacts) (packets : List PacketFacts) (removals : List Removal)
        (verdicts : List Verdict) → AreJudgedBetween d times policy packets removals verdicts
        → (d.dealing ≡ Bucket) ⊎ (d.workers ≡ 1) → All (IsByOwner d) removals → AreWithinHalf d packets
        → length removals ≤ length packets }
{}

/// By the records of all workers: with so few packets of a family's flows that its pages can't run out, none of them is
/// refused for want of pages, and none of their verdicts says so; with so few of both families no verdict does. Where sessions
/// are removed, removals count as packets do.
pub fn few_packets_have_pages()
    ensures one_family { (d : Deal) (times : Timeouts) (policy : PolicyFacts) (packets : List PacketFacts)
        (verdicts : List Verdict) (are : AreJudged d times policy packets verdicts) (family : Family)
        → AreFew d.layout family are.judged → All (HasPagesIn family) are.judged }
    ensures both_families { (d : Deal) (times : Timeouts) (policy : PolicyFacts) (packets : List PacketFacts)
        (verdicts : List Verdict) (are : AreJudged d times policy packets verdicts)
        → ((family : Family) → AreFew d.layout family are.judged) → HavePages verdicts }
    ensures between { (d : Deal) (times : Timeouts) (policy : PolicyFacts) (packets : List PacketFacts) (removals : List Removal)
        (verdicts : List Verdict) (are : AreJudgedBetween d times policy packets removals verdicts) (family : Family)
        → AreFewBetween d.layout family removals are.judged → All (HasPagesIn family) are.judged }
{}

/// The main promise. Whatever packets are dealt by, whichever sessions are removed, and whatever verdicts say: each packet
/// of a flow has its event in the record of the worker that it is dealt to, as a call of its own, at one place in the
/// history of its key's bucket, and passes exactly where the map there holds a live session of its flow, or the first rule
/// that matches lets it through.
pub fn packets_pass_at_their_places()
    ensures places { (d : Deal) (times : Timeouts) (policy : PolicyFacts) (packets : List PacketFacts)
        (verdicts : List Verdict) → PassAtPlaces d times policy packets verdicts }
    ensures own { (d : Deal) (steps : List Step) (views : Views) → HaveOwnCalls d steps views }
{}
