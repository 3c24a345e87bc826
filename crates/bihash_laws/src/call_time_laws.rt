//! The order of time, of calls as their contracts tell of them: what was answered, and in which states of the row.
//!
//! The functions do nothing: their contracts are the laws.
ghost use Rattle.std.specs.Prelude.{◌≡◌, ◌⊎◌, ℕ, ◌<◌, ◌≤◌, Bool, length, Option, Result, IfOk};
ghost use lib.ListN.{get_elem?};
ghost use mathlib.Core.Option.{some};
ghost use Rattle.bihash_words.specs.Maps.{Event};
ghost use Rattle.bihash_words.specs.Sizes.{IsSound, Sizes, sizes_of};
ghost use Rattle.bihash_words.specs.declared.patch.Change.{Change};
ghost use Rattle.bihash_words.specs.declared.patch.Reply.{Reply};
ghost use Rattle.bihash_words.specs.declared.patch.Reply.TheVariants.{Kept};
ghost use Rattle.bihash_rule.specs.Callers.{HasNumber};
ghost use Rattle.bihash_rule.specs.Logs.{Begins};
ghost use Rattle.bihash_rule.specs.Views.{first_view};
ghost use Rattle.bihash_rule.specs.WordRule.{WordRule};
ghost use Rattle.bihash_steps.specs.BucketCalls.{FindsBucket, HasEntered, IsValidated, TriesLock};
ghost use Rattle.bihash_steps.specs.BucketSteps.{acting, push_call, without_lock};
ghost use Rattle.bihash_steps.specs.CallerCalls.{AreInformed, HasCounted, IsCut, IsJoined, TakesNumber};
ghost use Rattle.bihash_steps.specs.Seats.{Becomes, CallerState, with_view};
ghost use Rattle.bihash_steps.specs.StoreCalls.{TriesStoreLock};
ghost use Rattle.bihash_steps.specs.Steps.{IsRefused, newcomer, parent};
ghost use Rattle.bihash_steps.specs.declared.split_fault.SplitFault.{SplitFault};
ghost use Rattle.bihash_table.specs.Ageing.{Sweeps, TellsExpire, TellsExpireTry};
ghost use Rattle.bihash_table.specs.Calls.{TellsLone, TellsRecycle, TellsRecycleTry, TellsSearch, TellsSearchTry, TellsUpdate, TellsUpdateTry};
ghost use Rattle.bihash_table.specs.Closing.{IsCloseRefused};
ghost use Rattle.bihash_table.specs.Promise.{IsAnswered, IsContended};
ghost use Rattle.bihash_table.specs.Renewing.{IsRenewRefused};
ghost use Rattle.bihash_table.specs.declared.close_fault.CloseFault.{CloseFault};
ghost use Rattle.bihash_table.specs.declared.contended.Contended.{Contended};
ghost use Rattle.bihash_table.specs.declared.renew_fault.RenewFault.{RenewFault};
ghost use Rattle.bihash_laws.specs.CallRuns.{IsLawfulAnswer};
ghost use Rattle.bihash_laws.specs.LogLaws.{Continues, RowState, log_of};
ghost use Rattle.bihash_laws.specs.RealTime.{GoesOn, IsKnownIn, IsYetToCall, StandInOrder, StandsIn, WasAnswered, WasLooked, WasTried, WereLooked, place_of};
ghost use Rattle.bihash_rule.specs.declared.view.Call.{Call};
ghost use Rattle.bihash_rule.specs.declared.view.View.{View};

use bihash_words::Shape;

/// An answered call is entered between its beginning and its end: it stands in the log of a state that has its caller
/// as the call left it, behind all entries of one that has the caller as the call found it. What other callers do
/// meanwhile plays no part in that it isn't in the first log and is in the second (`alone`).
pub fn calls_are_entered_while_they_run()
    ensures alone { (z : Sizes) (b : ℕ) (v w : View) (e : Event) (a : IsLawfulAnswer z b v w e) (s s' : RowState) (r : WordRule z s)
        (r' : WordRule z s') → IsYetToCall s v → IsKnownIn s' w.log
        → (StandsIn a (log_of r) → ⊥) × StandsIn a (log_of r') }
    ensures within { (z : Sizes) (b : ℕ) (v w : View) (e : Event) (a : IsLawfulAnswer z b v w e) (s s' : RowState) (r : WordRule z s)
        (r' : WordRule z s') (i j : ℕ) → get_elem? s.views i ≡ some v → get_elem? s'.views j ≡ some w
        → Continues s.views s'.views
        → (length (log_of r) ≤ place_of a) × (place_of a < length (log_of r')) × StandsIn a (log_of r') }
{}

/// A call that was answered before another began stands before it, in the log of each state where both are known, whoever
/// made them (`order`). One state s tells that the first came before: it was answered there, and the second wasn't entered yet.
/// What other callers do meanwhile plays no part. The caller of the second knows the first's entry then, though they never
/// met. The same holds where the first's last state is at or before the second's first (`states`).
pub fn answered_calls_stand_in_real_time()
    ensures order { (z : Sizes) (b d : ℕ) (v w x y : View) (e f : Event) (a : IsLawfulAnswer z b v w e)
        (c : IsLawfulAnswer z d x y f) (s t : RowState) (r : WordRule z s) (q : WordRule z t) → IsKnownIn s w.log
        → IsYetToCall s x → IsKnownIn t w.log → IsKnownIn t y.log
        → StandInOrder a c (log_of q) × StandInOrder a c y.log × Begins w.log y.log }
    ensures states { (z : Sizes) (b d : ℕ) (v w x y : View) (e f : Event) (a : IsLawfulAnswer z b v w e)
        (c : IsLawfulAnswer z d x y f) (s s' t : RowState) (r : WordRule z s) (r' : WordRule z s') (q : WordRule z t) (i j k : ℕ)
        → get_elem? s.views i ≡ some w → Continues s.views s'.views → get_elem? s'.views j ≡ some x
        → Continues s'.views t.views → get_elem? t.views k ≡ some y → StandInOrder a c (log_of q) }
{}

/// When a call is yet to be made: where its caller is as the call finds it (`begins`), as it was before (`before`), or in
/// any state that one with the caller so continues, be the caller made by then or not (`earlier`).
pub fn callers_are_yet_to_call()
    ensures begins { (z : Sizes) (s : RowState) (r : WordRule z s) (j : ℕ) (v : View) → get_elem? s.views j ≡ some v
        → 1 ≤ length v.records → IsYetToCall s v }
    ensures before { (z : Sizes) (s : RowState) (r : WordRule z s) (j : ℕ) (u v : View) → get_elem? s.views j ≡ some u
        → HasNumber u.records (acting v.records) → Begins u.log v.log → IsYetToCall s v }
    ensures earlier { (z : Sizes) (s s' : RowState) (r' : WordRule z s') (j : ℕ) (v : View) → Continues s.views s'.views
        → get_elem? s'.views j ≡ some v → 1 ≤ length v.records → IsYetToCall s v }
{}

/// There is a state with two callers at rest, as `order` asks it: the two that a split of caller 1 of a new table leaves, of
/// which either is yet to call, and what the other knows is known.
pub fn two_callers_come_to_rest()
    ensures { (z : Sizes) → IsSound z → (s : RowState) × WordRule z s
        × (get_elem? s.views 0 ≡ some (parent (first_view z) 1)) × (get_elem? s.views 1 ≡ some (newcomer (first_view z) 1))
        × IsYetToCall s (parent (first_view z) 1) × IsYetToCall s (newcomer (first_view z) 1)
        × IsKnownIn s (parent (first_view z) 1).log × IsKnownIn s (newcomer (first_view z) 1).log }
{}

/// Each call of a key leaves an answer, or a caller that goes on where it was given up.
pub fn calls_are_answers<S: Shape>(key: &S::Key)
    ensures search { (s t : CallerState) (found : Option ℕ) → TellsSearch ⟦<S as Shape>⟧ s t key.now found
        → WasAnswered (sizes_of S.Shape) s t (S.words_of key.now) (Kept found) }
    ensures update { (s t : CallerState) (decision : Option ℕ → Change) (reply : Reply)
        → TellsUpdate ⟦<S as Shape>⟧ s t key.now decision reply → WasAnswered (sizes_of S.Shape) s t (S.words_of key.now) reply }
    ensures recycle { (s t : CallerState) (decision : Option ℕ → Change) (is_expired : ℕ → Bool) (reply : Reply)
        → TellsRecycle ⟦<S as Shape>⟧ s t key.now decision is_expired reply → WasAnswered (sizes_of S.Shape) s t (S.words_of key.now) reply }
    ensures search_try { (s t : CallerState) (r : Result (Option ℕ) Contended) → TellsSearchTry ⟦<S as Shape>⟧ s t key.now r
        → WasTried (sizes_of S.Shape) s t (S.words_of key.now) Kept r }
    ensures update_try { (s t : CallerState) (decision : Option ℕ → Change) (r : Result Reply Contended)
        → TellsUpdateTry ⟦<S as Shape>⟧ s t key.now decision r
        → WasTried (sizes_of S.Shape) s t (S.words_of key.now) (λ reply. reply) r }
    ensures recycle_try { (s t : CallerState) (decision : Option ℕ → Change) (is_expired : ℕ → Bool) (r : Result Reply Contended)
        → TellsRecycleTry ⟦<S as Shape>⟧ s t key.now decision is_expired r
        → WasTried (sizes_of S.Shape) s t (S.words_of key.now) (λ reply. reply) r }
{}

/// Each look at a bucket leaves an answer, a sweep one for each look, and a look given up none. Either way the caller goes on.
pub fn looks_are_answers()
    ensures expire { (z : Sizes) (s t : CallerState) (b : ℕ) (is_expired : ℕ → Bool) (found : Option Reply)
        → TellsExpire z s t b is_expired found → WasLooked z s.view t.view b is_expired found × GoesOn s.view t.view }
    ensures expire_try { (z : Sizes) (s t : CallerState) (b : ℕ) (is_expired : ℕ → Bool) (r : Result (Option Reply) Contended)
        → TellsExpireTry z s t b is_expired r → IfOk r (WasLooked z s.view t.view b is_expired) × GoesOn s.view t.view }
    ensures sweep { (z : Sizes) (s t : CallerState) (from to : ℕ) (is_expired : ℕ → Bool) (went : ℕ)
        (m : Sweeps z s t from to is_expired went) → WereLooked z is_expired s.view m.looks t.view × GoesOn s.view t.view }
{}

/// Each call of a table leaves its callers as ones that go on, and states in which each caller goes on continue one
/// another.
pub fn calls_go_on()
    ensures same { (v : View) → GoesOn v v }
    ensures through { (u v w : View) → GoesOn u v → GoesOn v w → GoesOn u w }
    ensures answered { (z : Sizes) (v w : View) (e : Event) → IsAnswered z v w e → GoesOn v w }
    ensures contended { (z : Sizes) (v w : View) (b : ℕ) → IsContended z v w b → GoesOn v w }
    ensures lone { (z : Sizes) (s t : CallerState) (answer : Bool) → TellsLone z s t answer → GoesOn s.view t.view }
    ensures not_closed { (z : Sizes) (v w : View) (fault : CloseFault) → IsCloseRefused z v fault w → GoesOn v w }
    ensures not_renewed { (z : Sizes) (v w : View) (fault : RenewFault) → IsRenewRefused z v fault w → GoesOn v w }
    ensures split { (v : View) (count : ℕ) → GoesOn v (parent v count) }
    ensures not_split { (z : Sizes) (v w : View) (fault : SplitFault) → IsRefused z v fault w → GoesOn v w }
    ensures met { (z : Sizes) (s other t u : CallerState) → AreInformed z s other t u → GoesOn s.view t.view × GoesOn other.view u.view }
    ensures joined { (z : Sizes) (s other t : CallerState) → IsJoined z s other t → GoesOn s.view t.view × GoesOn other.view t.view }
    ensures states { (s s' : RowState) → ((j : ℕ) (v : View) → get_elem? s.views j ≡ some v
        → (k : ℕ) × (w : View) × (get_elem? s'.views k ≡ some w) × GoesOn v w) → Continues s.views s'.views }
{}

/// Each step of `bihash_steps` leaves its caller as one that goes on: so does a call up to any of its steps. A step that
/// isn't named here leaves all that its caller did and knows of the log (`keeps`).
pub fn steps_go_on()
    ensures keeps { (s t : CallerState) (v : View) → t ≡ with_view s v → v.records ≡ s.view.records → v.log ≡ s.view.log
        → GoesOn s.view t.view }
    ensures load_bucket { (z : Sizes) (s t : CallerState) (b word : ℕ) → FindsBucket z s t b word → GoesOn s.view t.view }
    ensures lock_from { (z : Sizes) (s t : CallerState) (b word : ℕ) (locked : Bool) → TriesLock z s t b word locked → GoesOn s.view t.view }
    ensures validate { (z : Sizes) (s t : CallerState) (c : Call) (here : Bool) → IsValidated z s t c here → GoesOn s.view t.view }
    ensures enters { (z : Sizes) (s t : CallerState) (after : View) (c : Call) → HasEntered z s after c t
        → after.records ≡ push_call c s.view.records → GoesOn s.view t.view }
    ensures release { (z : Sizes) (s t : CallerState) → Becomes z s (without_lock s.view) t → GoesOn s.view t.view }
    ensures pool_lock { (z : Sizes) (s t : CallerState) (locked : Bool) → TriesStoreLock z s t locked → GoesOn s.view t.view }
    ensures load_count { (z : Sizes) (s t : CallerState) (count : ℕ) → HasCounted z s t count → GoesOn s.view t.view }
    ensures take_number { (z : Sizes) (s t : CallerState) (count : ℕ) (won : Bool) → TakesNumber z s t count won → GoesOn s.view t.view }
    ensures cut { (z : Sizes) (s t u : CallerState) (kept n : ℕ) → IsCut z s t u kept → HasNumber s.view.records n
        → (t.view.log ≡ s.view.log) × (u.view.log ≡ s.view.log) × (HasNumber t.view.records n ⊎ HasNumber u.view.records n) }
{}
