//! What any steps under the word rule do to the log of a row, whatever they are.
//!
//! The functions do nothing: their contracts are the laws.
ghost use Rattle.std.specs.Prelude.{◌≡◌, ℕ, ◌<◌, ◌≤◌, ◌^◌, false, List, length, slice_index, slice_set};
ghost use lib.ListN.{get_elem?};
ghost use mathlib.Core.Option.{some};
ghost use Rattle.bihash_words.specs.Sizes.{Sizes};
ghost use Rattle.bihash_rule.specs.Histories.{is_changed};
ghost use Rattle.bihash_rule.specs.Words.{count_of};
ghost use Rattle.bihash_rule.specs.Callers.{IsWhole};
ghost use Rattle.bihash_rule.specs.Logs.{Begins};
ghost use Rattle.bihash_rule.specs.WordRule.{WordRule};
ghost use Rattle.atomic_table.specs.Table.{Allows};
ghost use Rattle.bihash_steps.specs.Steps.{ViewOfSeat};
ghost use Rattle.bihash_steps.specs.BucketSteps.{Enters, entry_of, push_call};
ghost use Rattle.bihash_laws.specs.LogLaws.{Continues, IsAnswerStep, IsEntered, Recalls, RowState, log_of};
ghost use Rattle.bihash_laws.specs.LogRuns.{IsStepRun, end_of};
ghost use Rattle.bihash_rule.specs.declared.view.Call.{Call};
ghost use Rattle.bihash_rule.specs.declared.view.Entry.{Entry};
ghost use Rattle.bihash_rule.specs.declared.view.View.{View};

/// Where no number is lost and nothing that was known of the log is forgotten, the log of one state begins
/// that of the other.
pub fn logs_only_grow()
    ensures { (z : Sizes) (s s' : RowState) (r : WordRule z s) (r' : WordRule z s') → Continues s.views s'.views
        → Begins (log_of r) (log_of r') }
{}

/// A step that adds a call to the record of its caller enters it at the end of the log, and nothing else. The
/// stamp of the call is the version that its bucket has then.
pub fn calls_enter_at_the_end()
    ensures { (z : Sizes) (s s' : RowState) (r : WordRule z s) (r' : WordRule z s') (id : ℕ) (v w : View) (c : Call)
        → IsAnswerStep s s' id v w c → IsEntered z r r' v c }
{}

/// A call that was answered in an earlier state stands in the log before each that a later step answers.
pub fn calls_stand_in_real_time()
    ensures { (z : Sizes) (t s s' : RowState) (q : WordRule z t) (r : WordRule z s) (r' : WordRule z s') (id p : ℕ) (v w : View)
        (c : Call) (a : Entry) → Continues t.views s.views → IsAnswerStep s s' id v w c → get_elem? (log_of q) p ≡ some a
        → (p < length (log_of r)) × (get_elem? (log_of r') p ≡ some a)
        × (get_elem? (log_of r') (length (log_of r)) ≡ some (entry_of v c)) }
{}

/// A run of a row, each step of which is of one of the kinds of `bihash_steps`, only adds to the log. Its steps that enter a call
/// are answers (`answers`), and what had been answered when it began stands before each call that is answered after its
/// end, in the log of each later state.
pub fn runs_answer_in_real_time()
    ensures continues { (z : Sizes) (s : RowState) (ts : List RowState) → WordRule z s → IsStepRun z s ts
        → Continues s.views (end_of s ts).views }
    ensures grows { (z : Sizes) (s : RowState) (ts : List RowState) (r : WordRule z s) → IsStepRun z s ts
        → (r' : WordRule z (end_of s ts)) → Begins (log_of r) (log_of r') }
    ensures answers { (z : Sizes) (s s' : RowState) (id : ℕ) (v after w : View) (c : Call) → get_elem? s.views id ≡ some v
        → 1 ≤ length v.records → s'.views ≡ slice_set s.views id w → Enters z v c after w
        → after.records ≡ push_call c v.records → IsAnswerStep s s' id v w c }
    ensures order { (z : Sizes) (s t : RowState) (ts us : List RowState) (q : WordRule z s) → IsStepRun z s ts
        → (r : WordRule z (end_of s ts)) (r' : WordRule z t) (id p : ℕ) (v w : View) (c : Call) (a : Entry)
        → IsAnswerStep (end_of s ts) t id v w c → get_elem? (log_of q) p ≡ some a → IsStepRun z t us
        → (r'' : WordRule z (end_of t us)) → (p < length (log_of r)) × (get_elem? (log_of r'') p ≡ some a)
        × (get_elem? (log_of r'') (length (log_of r)) ≡ some (entry_of v c)) }
{}

/// No step adds a call to a record, and so to the log, that is no write and whose stamp is less than the version of its
/// bucket.
pub fn stale_reads_never_enter()
    ensures { (z : Sizes) (s s' : RowState) (r : WordRule z s) (r' : WordRule z s') (id : ℕ) (v w : View) (c : Call)
        → IsAnswerStep s s' id v w c → is_changed c.reply ≡ false → c.stamp < length (r.table.bucket c.bucket).history → ⊥ }
{}

/// The word rule allows no step, whatever word it reads or writes, that would enter a stale read into the log: what a
/// step of a table asks of its caller can not be met while the version of the bucket is greater than its stamp.
pub fn no_step_recalls()
    ensures { (z : Sizes) (slots id i : ℕ) (f : ℕ → ℕ) (m : ViewOfSeat) (c : Call)
        → Allows (WordRule z) slots id m i f (λ _ n. Recalls c m n)
        → (s : RowState) (r : WordRule z s) → length s.homes ≡ slots → get_elem? s.views id ≡ some m.0
        → slice_index s.words i < 2 ^ 64 → 1 ≤ length m.0.records → is_changed c.reply ≡ false
        → c.stamp < length (r.table.bucket c.bucket).history → ⊥ }
{}

/// A caller that has each number up to the caller count knows the whole log: it has each call that was answered.
pub fn whole_callers_know_the_log()
    ensures { (z : Sizes) (s : RowState) (r : WordRule z s) (id : ℕ) (v : View) → get_elem? s.views id ≡ some v
        → IsWhole v.records (count_of s.words) → v.log ≡ log_of r }
{}
