//! Updates that are tried until they are answered: one of any decision, and the four fixed ones.
ghost use Rattle.std.specs.Prelude.{◌≡◌, ◌≢◌, true};
ghost use Rattle.bihash_words.specs.Patches.{free_mark, set_if_absent, set_if_present};
ghost use Rattle.bihash_words.specs.Sizes.{sizes_of};
ghost use Rattle.bihash_words.specs.declared.patch.Change.TheVariants.{Set, Remove};
ghost use Rattle.bihash_steps.specs.CallerCalls.{IsIdle};
ghost use Rattle.bihash_table.specs.Calls.{TellsRecycle, TellsUpdate};
ghost use Rattle.bihash_table.specs.OutOfPages.{LacksLarger};

use crate::key_with_hash::KeyWithHash;
use crate::shared_table::Sessions;
use bihash_steps::Caller;
use bihash_words::{Add, AddIfAbsent, Delete, Expiry, Patch, Reply, Shape, Touch};
use crossbeam_utils::Backoff;
use std::sync::Wait;

impl<S: Shape> Sessions<S> {
    /// Decides on the value of the key, once for each try, and makes the change that was decided. It is tried again, after
    /// a wait, until no other caller holds a lock or changes the bucket meanwhile.
    #[inline(always)]
    pub fn update<P: Patch, R: Wait>(
        &self,
        rt: &R,
        caller: &mut Caller<S>,
        key: &S::Key,
        patch: &P,
    ) -> Reply
        requires { IsIdle self.now.row caller.old.seat }
        ensures told { TellsUpdate ⟦<S as Shape>⟧ caller.old.seat caller.new.seat key.now (P.decision patch.now) result }
        ensures no_larger { self.now.cuts_blocks ≡ true → LacksLarger (sizes_of S.Shape) caller.new.seat.view result }
    {
        let backoff = Backoff::new();
        for _ in rt.forever() {
            if let Ok(reply) = self.try_update(caller, key, patch) {
                return reply;
            }
            backoff.snooze();
        }
        unreachable!()
    }

    /// An update that is tried until it is answered, and by which a new key that finds no room takes the place of the expired pair
    /// of the bucket with the least key, if any: the answer is `Changed(None)` then.
    #[inline(always)]
    pub fn add_or_recycle<P: Patch, E: Expiry, R: Wait>(
        &self,
        rt: &R,
        caller: &mut Caller<S>,
        known: &KeyWithHash<'_, S>,
        patch: &P,
        expiry: &E,
    ) -> Reply
        requires { IsIdle self.now.row caller.old.seat }
        ensures told { TellsRecycle ⟦<S as Shape>⟧ caller.old.seat caller.new.seat known.now.key.now (P.decision patch.now)
            (E.is_expired expiry.now) result }
        ensures no_larger { self.now.cuts_blocks ≡ true → LacksLarger (sizes_of S.Shape) caller.new.seat.view result }
    {
        let backoff = Backoff::new();
        for _ in rt.forever() {
            if let Ok(reply) = self.try_add_or_recycle(caller, known, patch, expiry) {
                return reply;
            }
            backoff.snooze();
        }
        unreachable!()
    }

    /// Sets the value, whatever was found, by an update that is tried until it is answered.
    pub fn add<R: Wait>(&self, rt: &R, caller: &mut Caller<S>, key: &S::Key, value: u64) -> Reply
        requires idle { IsIdle self.now.row caller.old.seat }
        requires storable { value ≢ free_mark }
        ensures told { TellsUpdate ⟦<S as Shape>⟧ caller.old.seat caller.new.seat key.now (λ _. Set value) result }
        ensures no_larger { self.now.cuts_blocks ≡ true → LacksLarger (sizes_of S.Shape) caller.new.seat.view result }
    {
        self.update(rt, caller, key, &Add { value })
    }

    /// Sets the value where there is none, and keeps one that is there, by an update that is tried until it is answered.
    pub fn add_if_absent<R: Wait>(
        &self,
        rt: &R,
        caller: &mut Caller<S>,
        key: &S::Key,
        value: u64,
    ) -> Reply
        requires idle { IsIdle self.now.row caller.old.seat }
        requires storable { value ≢ free_mark }
        ensures told { TellsUpdate ⟦<S as Shape>⟧ caller.old.seat caller.new.seat key.now (set_if_absent value) result }
        ensures no_larger { self.now.cuts_blocks ≡ true → LacksLarger (sizes_of S.Shape) caller.new.seat.view result }
    {
        self.update(rt, caller, key, &AddIfAbsent { value })
    }

    /// Sets the value where there is one, by an update that is tried until it is answered.
    pub fn touch<R: Wait>(&self, rt: &R, caller: &mut Caller<S>, key: &S::Key, value: u64) -> Reply
        requires idle { IsIdle self.now.row caller.old.seat }
        requires storable { value ≢ free_mark }
        ensures told { TellsUpdate ⟦<S as Shape>⟧ caller.old.seat caller.new.seat key.now (set_if_present value) result }
        ensures no_larger { self.now.cuts_blocks ≡ true → LacksLarger (sizes_of S.Shape) caller.new.seat.view result }
    {
        self.update(rt, caller, key, &Touch { value })
    }

    /// Removes the value, by an update that is tried until it is answered.
    pub fn remove<R: Wait>(&self, rt: &R, caller: &mut Caller<S>, key: &S::Key) -> Reply
        requires { IsIdle self.now.row caller.old.seat }
        ensures told { TellsUpdate ⟦<S as Shape>⟧ caller.old.seat caller.new.seat key.now (λ _. Remove) result }
        ensures no_larger { self.now.cuts_blocks ≡ true → LacksLarger (sizes_of S.Shape) caller.new.seat.view result }
    {
        self.update(rt, caller, key, &Delete)
    }
}
