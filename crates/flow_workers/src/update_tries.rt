//! How often an update of a table is tried: once, or until it is answered.
ghost use Rattle.std.specs.Prelude.{◌≡◌, length};
ghost use Rattle.bihash_words.specs.declared.patch.Reply.{Reply};
ghost use Rattle.bihash_rule.specs.declared.view.View.{View};
ghost use Rattle.bihash_steps.specs.CallerCalls.{IsIdle};
ghost use Rattle.flow_workers.specs.inner.Updates.{TellsWords};

use bihash_table::{Caller, Contended, KeyWithHash, Sessions};
use bihash_words::{Expiry, Patch, Reply, Shape};
use std::convert::Infallible;
use std::sync::Wait;

/// The words of a key, and their hash.
#[derive(Clone, Copy)]
pub struct HashedWords<'w> {
    pub words: &'w [u64],
    pub hash: u64,
}

/// How often an update of a table is tried.
pub trait Tries {
    /// Why there may be no reply.
    type Refusal;

    /// Whether a call that was answered so may have taken its locks between these views.
    ghost took: { View → View → Reply → Type 0 };

    /// An update of the key of these words, which makes room where values are expired.
    fn update_words<S: Shape, P: Patch, E: Expiry>(
        &self,
        table: &Sessions<S>,
        caller: &mut Caller<S>,
        key: &HashedWords<'_>,
        patch: &P,
        expiry: &E,
    ) -> Result<Reply, Self::Refusal>
        requires counted { length key.now.words.now ≡ S.WORDS }
        requires hashed { key.now.hash ≡ S.hash_of_words key.now.words.now }
        requires idle { IsIdle table.now.row caller.old.seat }
        ensures { TellsWords took ⟦<S as Shape>⟧ caller.old.seat caller.new.seat key.now.words.now (P.decision patch.now)
            (E.is_expired expiry.now) result };
}

/// One try, which is refused where another caller's change or lock was met.
#[derive(Drop)]
pub struct OneTry;

impl Tries for OneTry {
    type Refusal = Contended;

    ghost use Rattle.flow_workers.specs.Judging.{TookByOneTry};

    ghost took = { TookByOneTry };

    #[inline(always)]
    fn update_words<S: Shape, P: Patch, E: Expiry>(
        &self,
        table: &Sessions<S>,
        caller: &mut Caller<S>,
        key: &HashedWords<'_>,
        patch: &P,
        expiry: &E,
    ) -> Result<Reply, Contended> {
        let words = S::key(key.words);
        let known = KeyWithHash {
            key: &words,
            hash: key.hash,
        };
        table.try_add_or_recycle(caller, &known, patch, expiry)
    }
}

/// Tries until there is a reply, with a wait behind each that isn't answered.
#[derive(Drop)]
pub struct UntilAnswered<'r, R: Wait> {
    pub rt: &'r R,
}

impl<'r, R: Wait> Tries for UntilAnswered<'r, R> {
    type Refusal = Infallible;

    ghost use Rattle.bihash_table.specs.Tries.{TookByTries};

    ghost took = { TookByTries };

    #[inline(always)]
    fn update_words<S: Shape, P: Patch, E: Expiry>(
        &self,
        table: &Sessions<S>,
        caller: &mut Caller<S>,
        key: &HashedWords<'_>,
        patch: &P,
        expiry: &E,
    ) -> Result<Reply, Infallible> {
        let words = S::key(key.words);
        let known = KeyWithHash {
            key: &words,
            hash: key.hash,
        };
        Ok(table.add_or_recycle(self.rt, caller, &known, patch, expiry))
    }
}
