//! Why a step that a try goes on with fails.
//!
//! The function does nothing: its contract is the law.
ghost use Rattle.std.specs.Prelude.{◌≡◌, ◌≢◌, ◌⊎◌, ℕ, ◌<◌, true, length, slice_index, None, Some};
ghost use lib.ListN.{get_elem?};
ghost use mathlib.Core.Option.{some};
ghost use Rattle.bihash_words.specs.Sizes.{Sizes};
ghost use Rattle.bihash_rule.specs.Words.{allocation_lock_of, bucket_at, buckets};
ghost use Rattle.bihash_rule.specs.Buckets.{open_word};
ghost use Rattle.bihash_rule.specs.WordRule.{WordRule};
ghost use Rattle.bihash_steps.specs.BucketSteps.{SeesLocked};
ghost use Rattle.bihash_laws.specs.Contention.{IsLockedByAnother, IsStoreLockedByAnother};
ghost use Rattle.bihash_laws.specs.LogLaws.{RowState};
ghost use Rattle.bihash_rule.specs.declared.view.OpenBucket.{OpenBucket};
ghost use Rattle.bihash_rule.specs.declared.view.View.{View};

/// What the caller of seat id, whose view is v, finds in a state when its step fails is another's doing, and the caller isn't
/// lone. A bucket's word that it finds locked is locked by another caller (`locked`). A word that isn't the one that it noted
/// is locked by another, or the bucket was written since (`changed`). An allocation lock that it finds held is held by
/// another (`store`).
pub fn steps_fail_for_others()
    ensures locked { (z : Sizes) (s : RowState) (r : WordRule z s) (id b : ℕ) (v w : View) → get_elem? s.views id ≡ some v
        → v.holds.bucket ≡ None → b < buckets z → SeesLocked v (slice_index s.words (bucket_at z b)) w
        → IsLockedByAnother s id b × (v.lone ≢ true) }
    ensures changed { (z : Sizes) (s : RowState) (r : WordRule z s) (id : ℕ) (v : View) (o : OpenBucket) → get_elem? s.views id ≡ some v
        → v.holds.bucket ≡ None → v.notes.open_bucket ≡ Some o → slice_index s.words (bucket_at z o.bucket) ≢ open_word o
        → (IsLockedByAnother s id o.bucket ⊎ (o.version < length (r.table.bucket o.bucket).history)) × (v.lone ≢ true) }
    ensures store { (z : Sizes) (s : RowState) (r : WordRule z s) (id : ℕ) (v : View) → get_elem? s.views id ≡ some v
        → v.holds.store ≡ None → allocation_lock_of s.words ≢ 0 → IsStoreLockedByAnother s id × (v.lone ≢ true) }
{}
