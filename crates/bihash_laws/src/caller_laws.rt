//! What the lawfulness of callers means for the maps of the buckets.
//!
//! The functions do nothing: their contracts are the laws.
ghost use Rattle.std.specs.Prelude.{◌≡◌, ◌≢◌, ◌≤◌, ◌<◌, ◌+◌, ◌++◌, ℕ, Bool, [], ◌∷◌, List, Option, Some, length, true, false, All};
ghost use Rattle.std.specs.FinMap.{get};
ghost use lib.ListN.{get_elem?};
ghost use mathlib.Core.Option.{some};
ghost use Rattle.bihash_words.specs.Maps.{Event};
ghost use Rattle.bihash_words.specs.Sizes.{Sizes};
ghost use Rattle.bihash_words.specs.declared.patch.Change.{Change};
ghost use Rattle.bihash_words.specs.declared.patch.Reply.{Reply};
ghost use Rattle.bihash_words.specs.declared.patch.Reply.TheVariants.{Full};
ghost use Rattle.bihash_rule.specs.Words.{buckets};
ghost use Rattle.bihash_rule.specs.Histories.{IsLegal, IsPairOf, IsPrefix, is_changed};
ghost use Rattle.bihash_rule.specs.Callers.{Agrees, HasMadeAll, HasNumber, IsLawfulCaller, IsWhole, known_at, opening_at};
ghost use Rattle.bihash_steps.specs.Steps.{HaveBearers};
ghost use Rattle.bihash_rule.specs.Views.{opening_view};
ghost use Rattle.bihash_steps.specs.BucketSteps.{acting, map_now};
ghost use Rattle.bihash_rule.specs.declared.view.Entry.{Entry};
ghost use Rattle.bihash_rule.specs.declared.view.Openings.{Openings};
ghost use Rattle.bihash_rule.specs.declared.view.Write.{Write};
ghost use Rattle.bihash_rule.specs.declared.view.Record.{Record};
ghost use Rattle.bihash_rule.specs.declared.view.View.{View};
ghost use Rattle.bihash_table.specs.Answers.{entry_of, recycled_update};
ghost use Rattle.bihash_laws.specs.Orders.{IsCommonLog, IsOneOrder};
ghost use Rattle.bihash_laws.specs.Recyclings.{HasRecycled};
ghost use Rattle.bihash_laws.specs.Serializations.{IsCalled, IsCommonSerialization, IsSerialization, Operation};
ghost use Rattle.bihash_laws.specs.CallRuns.{IsCommonHistory, IsLastWrite, IsLawfulAnswer, LearnsOnlyOwn, IsOneWriter, IsCallRun, calls_on};

/// To a caller each of whose known writes of a bucket was made under one number, the bucket is one bounded
/// map: the calls of that number there, in their order, are a run of the map. It begins with the map that the
/// bucket began with, and ends at the map that the last known write left.
#[tactic(auto, using(crate::proofs::OneWriter::one_map))]
pub fn one_writer_has_one_map()
    ensures { (z : Sizes) (v : View) (i b : ℕ) (r : Record) → IsLawfulCaller z v → get_elem? v.records i ≡ some r
        → b < buckets z → IsOneWriter v.known b r.number
        → IsCallRun z (opening_at v.known b) 0 (calls_on b r.calls) (map_now v b) (length (known_at v.known b)) }
{}

/// A lawful caller's calls on a bucket, and the writes of others that it knows there, stand in one sequential
/// order: a run of one bounded map in which each of its records has its calls in their order.
#[tactic(auto, using(crate::proofs::BucketOrders::one_order))]
pub fn calls_have_one_order()
    ensures { (z : Sizes) (v : View) (b : ℕ) → IsLawfulCaller z v → b < buckets z → (operations : List Operation)
        × IsSerialization z b (opening_at v.known b) (known_at v.known b) v.records operations }
{}

/// What a lawful caller knows of the log is one sequential order of the calls in it, on all buckets: on each bucket they
/// are a run of one bounded map, and each of the caller's records has its calls in their order. Two that agree have one
/// such log with the calls of both.
pub fn logs_are_one_order()
    ensures one { (z : Sizes) (v : View) → IsLawfulCaller z v → IsOneOrder z v.known.openings v.records v.log }
    ensures both { (z : Sizes) (v w : View) → IsLawfulCaller z v → IsLawfulCaller z w → Agrees v w
        → (log : List Entry) × IsCommonLog z v w log }
{}

/// An answered call stands in the log after each entry that its caller knew when the call began, be it of its own or of
/// a caller that it had met, and these stay where they were.
pub fn answers_stand_after_what_was_known()
    ensures { (z : Sizes) (b : ℕ) (v w : View) (e : Event) (a : IsLawfulAnswer z b v w e) (p : ℕ) (x : Entry)
        → get_elem? v.log p ≡ some x → (get_elem? w.log p ≡ some x) × (k : ℕ) × (p < k)
        × (get_elem? w.log k
        ≡ some (record { by = acting v.records; call = entry_of z (length a.answered.history) e a.answered.noted })) }
{}

/// A caller that made each write that it knows has such an order with no call but its own.
#[tactic(auto, using(crate::proofs::BucketOrders::whole_order))]
pub fn whole_callers_have_one_order()
    ensures { (z : Sizes) (v : View) (b : ℕ) → IsLawfulCaller z v → HasMadeAll z v → b < buckets z
        → (operations : List Operation)
        × IsSerialization z b (opening_at v.known b) (known_at v.known b) v.records operations
        × All (λ t. HasNumber v.records t.by) operations }
{}

/// A caller that has each number up to the count of callers that it saw made each write that it knows, and so
/// did a lone caller. Each of these writes is a call of one of its records, at its stamp.
#[tactic(auto, using(crate::proofs::BucketOrders::whole_call, crate::proofs::BucketOrders::whole_made))]
pub fn whole_callers_made_each_write()
    ensures whole { (z : Sizes) (v : View) → IsWhole v.records v.seen → HaveBearers z v → HasMadeAll z v }
    ensures lone { (z : Sizes) (v : View) → IsLawfulCaller z v → v.lone ≡ true → HasMadeAll z v }
    ensures called { (z : Sizes) (v : View) (b n : ℕ) (w : Write) → IsLawfulCaller z v → HasMadeAll z v
        → b < buckets z → get_elem? (known_at v.known b) n ≡ some w → IsCalled b n w v.records }
{}

/// Two lawful callers that agree have one history of each bucket: the longer of what they know.
#[tactic(auto, using(crate::proofs::CommonHistories::common_history))]
pub fn agreeing_callers_share_a_history()
    ensures { (z : Sizes) (v w : View) → IsLawfulCaller z v → IsLawfulCaller z w → Agrees v w → (b : ℕ)
        → (history : List Write) × IsCommonHistory z b v w history }
{}

/// Two lawful callers that agree have one order of the calls of both on a bucket.
#[tactic(auto, using(crate::proofs::CommonSerializations::common_order))]
pub fn agreeing_callers_have_one_order()
    ensures { (z : Sizes) (v w : View) (b : ℕ) → IsLawfulCaller z v → IsLawfulCaller z w → Agrees v w
        → b < buckets z → (history : List Write) × (operations : List Operation)
        × IsCommonSerialization z b v w history operations }
{}

/// An answered call is legal on what its caller knows of the bucket afterwards, which continues what it knew
/// before. What it found, unless it wrote, is what the map holds there. Its entry is at the end of the
/// acting record, with the number of the bucket's known writes as its stamp. Nothing is learned of another
/// bucket, and no other record changes.
pub fn answers_are_the_maps()
    ensures continues { (z : Sizes) (b : ℕ) (v w : View) (e : Event) → IsLawfulAnswer z b v w e
        → IsPrefix (known_at v.known b) (known_at w.known b) }
    ensures legal { (z : Sizes) (b : ℕ) (v w : View) (e : Event) (a : IsLawfulAnswer z b v w e)
        → IsLegal z (opening_at w.known b) (known_at w.known b) (acting v.records)
        (entry_of z (length (known_at w.known b)) e a.answered.noted) }
    ensures found { (z : Sizes) (b : ℕ) (v w : View) (e : Event) → IsLawfulAnswer z b v w e
        → is_changed e.reply ≡ false → e.found ≡ get (map_now w b) e.key }
    ensures entered { (z : Sizes) (b : ℕ) (v w : View) (e : Event) (a : IsLawfulAnswer z b v w e)
        → (r : Record) → get_elem? v.records 0 ≡ some r
        → (q : Record) × (get_elem? w.records 0 ≡ some q) × (q.number ≡ r.number)
        × (q.calls ≡ r.calls ++ entry_of z (length (known_at w.known b)) e a.answered.noted ∷ []) }
    ensures other_records { (z : Sizes) (b : ℕ) (v w : View) (e : Event) → IsLawfulAnswer z b v w e
        → (i : ℕ) → 1 ≤ i → get_elem? w.records i ≡ get_elem? v.records i }
    ensures other_buckets { (z : Sizes) (b : ℕ) (v w : View) (e : Event) → IsLawfulAnswer z b v w e
        → (other : ℕ) → other ≢ b → known_at w.known other ≡ known_at v.known other }
    ensures openings { (z : Sizes) (b : ℕ) (v w : View) (e : Event) → IsLawfulAnswer z b v w e
        → w.known.openings ≡ v.known.openings }
{}

/// A caller's call writes at most once. Answered `Changed` its write is the last that the caller knows of the bucket,
/// and no other that was learned is the caller's own. Answered otherwise none is.
pub fn changed_alone_writes()
    ensures last { (z : Sizes) (b : ℕ) (v w : View) (e : Event) → IsLawfulAnswer z b v w e
        → is_changed e.reply ≡ true
        → IsLastWrite (opening_at w.known b) (known_at w.known b) (acting v.records) e }
    ensures once { (z : Sizes) (b : ℕ) (v w : View) (e : Event) → IsLawfulAnswer z b v w e → IsLawfulCaller z v
        → (n : ℕ) (x : Write) → length (known_at v.known b) ≤ n → n + 1 < length (known_at w.known b)
        → get_elem? (known_at w.known b) n ≡ some x → x.by ≢ acting v.records }
    ensures none { (z : Sizes) (b : ℕ) (v w : View) (e : Event) → IsLawfulAnswer z b v w e → IsLawfulCaller z v
        → is_changed e.reply ≡ false → (n : ℕ) (x : Write) → length (known_at v.known b) ≤ n
        → get_elem? (known_at w.known b) n ≡ some x → x.by ≢ acting v.records }
{}

/// A caller that only ever learns of writes that it makes itself is each bucket's one writer: caller 1 of a
/// new or a renewed table is, an answer that taught no other write leaves it so, and an answer teaches a lone caller none.
pub fn one_writer_stays()
    ensures first { (z : Sizes) (o : Openings) (b : ℕ)
        → IsOneWriter (opening_view z o).known b (acting (opening_view z o).records) }
    ensures stays { (z : Sizes) (b : ℕ) (v w : View) (e : Event) → IsLawfulAnswer z b v w e → LearnsOnlyOwn b v w e
        → (d : ℕ) → IsOneWriter v.known d (acting v.records) → IsOneWriter w.known d (acting w.records) }
    ensures lone { (z : Sizes) (b : ℕ) (v w : View) (e : Event) → IsLawfulAnswer z b v w e → v.lone ≡ true
        → LearnsOnlyOwn b v w e × (w.lone ≡ true) }
{}

/// To a lone caller what it knows of a bucket is all there is: a call that doesn't write leaves it as it was, and the
/// bucket's map with it.
#[tactic(auto, using(crate::proofs::AnsweredCalls::lone_keeps))]
pub fn lone_callers_know_all()
    ensures { (z : Sizes) (b : ℕ) (v w : View) (e : Event) → IsLawfulAnswer z b v w e → v.lone ≡ true
        → is_changed e.reply ≡ false
        → (known_at w.known b ≡ known_at v.known b) × (map_now w b ≡ map_now v b) }
{}

/// Each pair that a lawful caller knows of a bucket may stand there: its key is the bucket's, and its value is a word, and
/// no mark of a free place.
pub fn known_pairs_are_the_buckets()
    ensures { (z : Sizes) (b : ℕ) (v : View) (key : List ℕ) (value : ℕ) → IsLawfulCaller z v → b < buckets z
        → get (map_now v b) key ≡ Some value → IsPairOf z b key value }
{}

/// A caller's call with an expiry is answered Full only where no value of its bucket's map is expired. Where it removes
/// a key, that is the one with the least words among those with expired values: no live pair goes, and never two.
pub fn only_the_least_expired_pair_goes()
    ensures full { (z : Sizes) (b : ℕ) (v w : View) (key : List ℕ) (found : Option ℕ) (change : Change) (is_expired : ℕ → Bool)
        (removed : Option (List ℕ)) → IsLawfulAnswer z b v w (recycled_update key found change is_expired removed Full)
        → (other : List ℕ) (value : ℕ) → get (map_now w b) other ≡ Some value → is_expired value ≡ false }
    ensures gone { (z : Sizes) (b : ℕ) (v w : View) (key : List ℕ) (found : Option ℕ) (change : Change) (is_expired : ℕ → Bool)
        (gone : List ℕ) (reply : Reply) → IsLawfulAnswer z b v w (recycled_update key found change is_expired (Some gone) reply)
        → HasRecycled (opening_at w.known b) (known_at w.known b) key change is_expired gone reply }
{}
