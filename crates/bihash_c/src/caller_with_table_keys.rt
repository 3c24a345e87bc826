//! The calls of a caller with its table on keys and buckets: one try each.
ghost use Rattle.bihash_words.specs.Sizes.{sizes_of};
ghost use Rattle.bihash_table.specs.Calls.{TellsRecycleTry, TellsSearchTry, TellsUpdateTry};
ghost use Rattle.bihash_c.specs.CallersWithTable.{LooksAt};

use crate::caller_with_table::CallerWithTable;
use bihash_table::{Contended, KeyWithHash};
use bihash_words::{Expiry, Patch, Reply, Shape};

impl<S: Shape> CallerWithTable<S> {
    /// One try of a search by a caller with its table.
    #[inline(always)]
    pub fn search(&mut self, key: &S::Key) -> Result<Option<u64>, Contended>
        ensures { TellsSearchTry ⟦<S as Shape>⟧ self.old self.new key.now result }
    {
        let sessions = self.share.sessions();
        sessions.try_search(&mut self.caller, key)
    }

    /// One try of an update by a caller with its table.
    #[inline(always)]
    pub fn update<P: Patch>(&mut self, key: &S::Key, patch: &P) -> Result<Reply, Contended>
        ensures { TellsUpdateTry ⟦<S as Shape>⟧ self.old self.new key.now (P.decision patch.now) result }
    {
        let sessions = self.share.sessions();
        sessions.try_update(&mut self.caller, key, patch)
    }

    /// One try of an update with an expiry by a caller with its table.
    #[inline(always)]
    pub fn add_or_recycle<P: Patch, E: Expiry>(
        &mut self,
        key: &S::Key,
        patch: &P,
        expiry: &E,
    ) -> Result<Reply, Contended>
        ensures { TellsRecycleTry ⟦<S as Shape>⟧ self.old self.new key.now (P.decision patch.now)
            (E.is_expired expiry.now) result }
    {
        let sessions = self.share.sessions();
        let hash = S::hash(key);
        sessions.try_add_or_recycle(&mut self.caller, &KeyWithHash { key, hash }, patch, expiry)
    }

    /// One try of a look at a bucket for an expired pair by a caller with its table. In a bucket that the table doesn't have
    /// none is found.
    pub fn expire<E: Expiry>(&mut self, bucket: u64, expiry: &E) -> Result<Option<Reply>, Contended>
        ensures { LooksAt (sizes_of S.Shape) bucket (E.is_expired expiry.now) result self.old self.new }
    {
        let sessions = self.share.sessions();
        sessions.row.is_sound();
        let buckets = 1u64 << S::LOG2_BUCKETS;
        if bucket >= buckets {
            return Ok(None);
        }
        sessions.try_expire(&mut self.caller, bucket as usize, expiry)
    }

    /// Loads what calls on keys with these hashes load first of the caller's table: the buckets, and then the pages. It leaves
    /// nothing that a clause could name.
    pub fn look_ahead(&self, hashes: &[u64]) {
        let sessions = self.share.sessions();
        for hash in hashes {
            sessions.peek_bucket(*hash);
        }
        for hash in hashes {
            sessions.peek_page(*hash);
        }
    }
}
