//! What follows of the bounded map of a bucket. The functions do nothing: their contracts are the laws.
ghost use Rattle.std.specs.Prelude.{◌≡◌, ◌≢◌, ◌<◌, ◌≤◌, ◌↔◌, ◌++◌, ◌^◌, ℕ, Bool, false, List, Option, Some, None};
ghost use Rattle.std.specs.FinMap.{get, len};
ghost use Rattle.bihash_words.specs.Expiries.{expired_words, is_among};
ghost use Rattle.bihash_words.specs.Maps.{Bounds, Event, Pairs, IsEvent, IsSpare, HasExpiry, expired_told, found_by, most_pairs, spare};
ghost use Rattle.bihash_words.specs.Refusals.{IsNoRefusal, IsTaken};
ghost use Rattle.bihash_words.specs.Runs.{IsRun};
ghost use Rattle.bihash_words.specs.declared.patch.Change.{Change};
ghost use Rattle.bihash_words.specs.declared.patch.Reply.{Reply};
ghost use Rattle.bihash_words.specs.declared.recycling_note.Recycling.{Recycling};
ghost use Rattle.bihash_words.specs.declared.patch.Change.TheVariants.{Keep, Set};
ghost use Rattle.bihash_words.specs.declared.patch.Reply.TheVariants.{Changed, Full, Kept};

/// A call that isn't answered Changed leaves the map as it was. So does a search, which is a call that keeps.
#[tactic(auto, using(crate::proofs::MapLemmas::unchanged, crate::proofs::MapLemmas::kept))]
pub fn refusals_change_nothing()
    ensures refused { (b : Bounds) (m n : Pairs) (w : ℕ) (e : Event) → IsEvent b m w e n
        → ((found : Option ℕ) → e.reply ≢ Changed found) → n ≡ m }
    ensures kept { (b : Bounds) (m n : Pairs) (w : ℕ) (e : Event) → IsEvent b m w e n
        → e.change ≡ Keep → e.reply ≡ Kept (get m e.key) }
{}

/// A call changes the value of its own key alone, and of the one key that it removed for it, if any. It does so only
/// where the map may still change.
#[tactic(auto, using(crate::proofs::MapLemmas::others_stay, crate::proofs::MapLemmas::within_limit))]
pub fn other_keys_stay()
    ensures others { (b : Bounds) (m n : Pairs) (w : ℕ) (e : Event) (key : List ℕ) → IsEvent b m w e n
        → key ≢ e.key → e.recycling.removed ≢ Some key → get n key ≡ get m key }
    ensures limit { (b : Bounds) (m n : Pairs) (w : ℕ) (e : Event) (found : Option ℕ) → IsEvent b m w e n
        → e.reply ≡ Changed found → w < b.limit }
{}

/// No call makes a map exceed its bound, and Full is answered only at the bound.
#[tactic(auto, using(crate::proofs::MapLemmas::stays_bounded, crate::proofs::MapLemmas::full_at_bound))]
pub fn maps_stay_bounded()
    ensures bounded { (b : Bounds) (m n : Pairs) (w : ℕ) (e : Event) → IsEvent b m w e n
        → len m ≤ most_pairs b → len n ≤ most_pairs b }
    ensures full { (b : Bounds) (m n : Pairs) (w : ℕ) (e : Event) → IsEvent b m w e n
        → e.reply ≡ Full → most_pairs b ≤ len m }
{}

/// On the bounded map, what a call found is what its reply tells, and what the map gives at its key.
#[tactic(auto, using(crate::proofs::MapLemmas::found_is_told, crate::proofs::MapLemmas::stored_is_told))]
pub fn replies_tell_what_was_found()
    ensures found { (b : Bounds) (m n : Pairs) (w : ℕ) (e : Event) → IsEvent b m w e n → e.found ≡ found_by e.reply }
    ensures stored { (b : Bounds) (m n : Pairs) (w : ℕ) (e : Event) → IsEvent b m w e n → get m e.key ≡ found_by e.reply }
{}

/// A run of calls on a map and one that begins where it ended are one run, and a run can be parted anywhere.
#[tactic(auto, using(crate::proofs::RunLemmas::run_append, crate::proofs::RunLemmas::run_parts))]
pub fn runs_join_and_part()
    ensures joined { (b : Bounds) (m middle last : Pairs) (w v n : ℕ) (before after : List Event)
        → IsRun b m w before middle v → IsRun b middle v after last n → IsRun b m w (before ++ after) last n }
    ensures parted { (b : Bounds) (m last : Pairs) (w n : ℕ) (before after : List Event)
        → IsRun b m w (before ++ after) last n
        → (middle : Pairs) × (v : ℕ) × IsRun b m w before middle v × IsRun b middle v after last n }
{}

/// On the bounded map, a call that decides by what it finds, and has an expiry or none, has one answer where pages
/// don't run out, and leaves one map.
#[tactic(auto, using(crate::proofs::CallLemmas::some_call, crate::proofs::CallLemmas::one_call))]
pub fn each_call_has_one_answer()
    ensures some { (b : Bounds) (m : Pairs) (w : ℕ) (key : List ℕ) (decision : Option ℕ → Change) (expired : List ℕ)
        → (reply : Reply) × (recycling : Recycling) × (n : Pairs) × IsNoRefusal reply
        × (recycling.expired ≡ expired_told recycling.removed reply expired)
        × IsEvent b m w (record {
          key = key;
          found = get m key;
          change = decision (get m key);
          reply = reply;
          recycling = recycling;
        }) n }
    ensures one { (b : Bounds) (m n o : Pairs) (w : ℕ) (decision : Option ℕ → Change) (expired : List ℕ) (e f : Event)
        → e.key ≡ f.key → e.change ≡ decision e.found → f.change ≡ decision f.found
        → HasExpiry expired e → HasExpiry expired f
        → IsNoRefusal e.reply → IsNoRefusal f.reply → IsEvent b m w e n → IsEvent b m w f o → (e ≡ f) × (n ≡ o) }
{}

/// The key that goes from a map for a new one is the least whose value counts as expired, and none goes where no value
/// does. The words at which an expiry answers yes count as it says.
#[tactic(auto, using(crate::proofs::SpareLemmas::spare_tells, crate::proofs::SpareLemmas::none_spare, crate::proofs::SpareLemmas::among_words, crate::proofs::MapLemmas::removed_was_spare))]
pub fn the_least_expired_key_goes()
    ensures tells { (m : Pairs) (expired gone : List ℕ) → spare m expired ≡ Some gone → IsSpare m expired gone }
    ensures only { (m : Pairs) (expired gone : List ℕ) → IsSpare m expired gone → spare m expired ≡ Some gone }
    ensures none { (m : Pairs) (expired : List ℕ)
        → ((key : List ℕ) (value : ℕ) → get m key ≡ Some value → is_among value expired ≡ false)
        ↔ (spare m expired ≡ None) }
    ensures removed { (b : Bounds) (m n : Pairs) (w : ℕ) (e : Event) (gone : List ℕ) → IsEvent b m w e n
        → e.recycling.removed ≡ Some gone → IsSpare m e.recycling.expired gone }
    ensures words { (expired : ℕ → Bool) (value : ℕ) → value < 2 ^ 64
        → is_among value (expired_words expired) ≡ expired value }
{}

/// A call that sets a value is taken exactly where the map has the value at its key after it.
#[tactic(auto, using(crate::proofs::SetLemmas::set_stands))]
pub fn taken_values_stand()
    ensures { (b : Bounds) (m n : Pairs) (w value : ℕ) (e : Event) → IsEvent b m w e n → e.change ≡ Set value
        → IsTaken e.reply ↔ (get n e.key ≡ Some value) }
{}
