//! Loads without a caller, of which nothing is promised. Ahead of calls on several keys all their buckets are loaded first,
//! and then all their pages, so that the processor waits for many loads at once.
ghost use Rattle.std.specs.Prelude.{◌<◌, ◌≤◌};
ghost use Rattle.bihash_words.specs.Sizes.{sizes_of};
ghost use Rattle.bihash_rule.specs.Words.{buckets};

use crate::shared_table::Sessions;
use bihash_words::Shape;

// For how many keys loads are made before the first of them is searched.
const BURST: usize = 32;

impl<S: Shape> Sessions<S> {
    // The bucket that a hash names.
    #[inline(always)]
    fn bucket_named(&self, hash: u64) -> usize
        ensures { result < buckets (sizes_of S.Shape) }
    {
        self.row.is_sound();
        (hash % (1u64 << S::LOG2_BUCKETS)) as usize
    }

    /// Loads the word of the bucket of a key with this hash. It leaves nothing that a clause could name.
    #[inline(always)]
    pub fn peek_bucket(&self, hash: u64) {
        let _ = self.row.peek_bucket(self.bucket_named(hash));
    }

    /// Loads the page that a key with this hash would stand in. It leaves nothing that a clause could name.
    #[inline(always)]
    pub fn peek_page(&self, hash: u64) {
        self.row.is_sound();
        let word = self.row.peek_bucket(self.bucket_named(hash));
        let pages = 1u64 << word.log2().min(31);
        let page = (hash >> S::LOG2_BUCKETS) % pages;
        self.row.peek_page(word.page().wrapping_add(page));
    }

    /// Loads what calls on the first 32 of these keys load first. It leaves nothing that a clause could name.
    pub fn look_ahead(&self, keys: &[S::Key]) {
        let mut hashes = [0; BURST];
        let count = keys.len().min(BURST);
        for i in 0..count {
            hashes[i] = S::hash(&keys[i]);
        }
        for i in 0..count {
            self.peek_bucket(hashes[i]);
        }
        for i in 0..count {
            self.peek_page(hashes[i]);
        }
    }
    /// How many pages were never handed out, as it stood at some time during this load: a bound at best, since others hand
    /// pages out meanwhile. Returned blocks don't count.
    pub fn unused_pages(&self) -> u64
        ensures { result ≤ S.PAGES }
    {
        S::PAGES.saturating_sub(self.row.peek_used())
    }
}
