//! The calls on keys and buckets of what is behind a handle, answered as C is told.
ghost use Rattle.bihash_words.specs.Sizes.{sizes_of};
ghost use Rattle.bihash_c.specs.Contents.{Calls, ExpireTold, HasCaller, RecycleTold, SearchTold, UpdateTold};

use crate::answer_numbers::{Answer, expire_answer, reply_answer, search_answer};
use crate::handle_content_callers::Content;
use bihash_words::{Expiry, Patch, Shape};

impl<S: Shape> Content<S> {
    /// One try of a search.
    #[inline(always)]
    pub fn search(&mut self, key: &S::Key) -> Answer
        requires { HasCaller self.old }
        ensures { Calls self.old self.new (SearchTold ⟦<S as Shape>⟧ key.now result) }
    {
        let Content::Caller(caller) = self else {
            unreachable!();
        };
        search_answer(caller.search(key))
    }

    /// One try of an update.
    #[inline(always)]
    pub fn update<P: Patch>(&mut self, key: &S::Key, patch: &P) -> Answer
        requires { HasCaller self.old }
        ensures { Calls self.old self.new (UpdateTold ⟦<S as Shape>⟧ key.now (P.decision patch.now) result) }
    {
        let Content::Caller(caller) = self else {
            unreachable!();
        };
        reply_answer(caller.update(key, patch))
    }

    /// One try of an update with an expiry.
    #[inline(always)]
    pub fn add_or_recycle<P: Patch, E: Expiry>(
        &mut self,
        key: &S::Key,
        patch: &P,
        expiry: &E,
    ) -> Answer
        requires { HasCaller self.old }
        ensures { Calls self.old self.new (RecycleTold ⟦<S as Shape>⟧ key.now (P.decision patch.now)
            (E.is_expired expiry.now) result) }
    {
        let Content::Caller(caller) = self else {
            unreachable!();
        };
        reply_answer(caller.add_or_recycle(key, patch, expiry))
    }

    /// One try of a look at a bucket for an expired pair.
    pub fn expire<E: Expiry>(&mut self, bucket: u64, expiry: &E) -> Answer
        requires { HasCaller self.old }
        ensures { Calls self.old self.new (ExpireTold (sizes_of S.Shape) bucket (E.is_expired expiry.now) result) }
    {
        let Content::Caller(caller) = self else {
            unreachable!();
        };
        expire_answer(caller.expire(bucket, expiry))
    }

    /// Loads what calls on keys with these hashes load first. It leaves nothing that a clause could name.
    #[inline(always)]
    pub fn look_ahead(&self, hashes: &[u64])
        requires { HasCaller self.now }
    {
        let Content::Caller(caller) = self else {
            unreachable!();
        };
        caller.look_ahead(hashes);
    }
}
