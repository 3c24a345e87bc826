//! Searches: one try, and a search that waits for its turn.
ghost use Rattle.bihash_steps.specs.CallerCalls.{IsIdle};
ghost use Rattle.bihash_table.specs.Calls.{TellsSearch, TellsSearchTry};

use crate::bucket_lock::load_unlocked;
use crate::contended::Contended;
use crate::hashed_key::HashedKey;
use crate::open_bucket_search::{pair_in_open_bucket, value_found};
use crate::shared_table::Sessions;
use bihash_steps::{Caller, Event};
use bihash_words::{Change, Reply, Shape};
use crossbeam_utils::Backoff;
use std::marker::Brand;
use std::sync::Wait;

impl<S: Shape> Sessions<S> {
    /// The value of the key, `None` where it is absent. It takes no lock of a bucket.
    #[inline(always)]
    pub fn try_search(&self, caller: &mut Caller<S>, key: &S::Key) -> Result<Option<u64>, Contended>
        requires { IsIdle self.now.row caller.old.seat }
        ensures { TellsSearchTry ⟦<S as Shape>⟧ caller.old.seat caller.new.seat key.now result }
    {
        self.row.is_sound();
        let hashed = HashedKey::of(key);
        let seat = &mut caller.seat;
        let Some(word) = load_unlocked(&self.row, seat, hashed.bucket) else {
            return Err(Contended);
        };
        let pair = pair_in_open_bucket(&self.row, seat, word, &hashed);
        let found = value_found(pair);
        let event = Event {
            key: hashed.key,
            found,
            change: Change::Keep,
            reply: Reply::Kept(found),
        };
        if self
            .row
            .validate::<Brand, Event<'_, S>>(seat, hashed.bucket, word, &event)
        {
            return Ok(found);
        }
        Err(Contended)
    }

    /// The value of the key, `None` where it is absent. The search is tried again until no other caller holds the
    /// bucket's lock or changes it meanwhile.
    pub fn search<R: Wait>(&self, rt: &R, caller: &mut Caller<S>, key: &S::Key) -> Option<u64>
        requires { IsIdle self.now.row caller.old.seat }
        ensures { TellsSearch ⟦<S as Shape>⟧ caller.old.seat caller.new.seat key.now result }
    {
        if let Ok(found) = self.try_search(caller, key) {
            return found;
        }
        self.search_again(rt, caller, key)
    }

    // A search that met another caller. It stands apart, so that the first try keeps nothing for it.
    #[inline(never)]
    fn search_again<R: Wait>(&self, rt: &R, caller: &mut Caller<S>, key: &S::Key) -> Option<u64>
        requires { IsIdle self.now.row caller.old.seat }
        ensures { TellsSearch ⟦<S as Shape>⟧ caller.old.seat caller.new.seat key.now result }
    {
        let backoff = Backoff::new();
        for _ in rt.forever() {
            backoff.snooze();
            if let Ok(found) = self.try_search(caller, key) {
                return found;
            }
        }
        unreachable!()
    }
}
