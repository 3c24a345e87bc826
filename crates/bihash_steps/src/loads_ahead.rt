//! Loads without a caller, of which nothing is promised: ahead of a call, so that the words that it loads are in the
//! processor's caches then, and of how many pages were handed out.
ghost use Rattle.std.specs.Prelude.{◌<◌};
ghost use Rattle.bihash_words.specs.Sizes.{sizes_of};
ghost use Rattle.bihash_rule.specs.Words.{buckets};

use crate::row_and_callers::Row;
use crate::row_layout::{USED_MARK, pages_front};
use bihash_words::{BucketWord, Shape};

/// How many words a line of a processor's cache has, as most have it.
const LINE: usize = 8;

impl<S: Shape> Row<S> {
    /// The word of a bucket as it stood at some time during this load, which no caller notes: a promise rests on
    /// no part of it.
    #[inline(always)]
    pub fn peek_bucket(&self, bucket: usize) -> BucketWord
        requires { bucket < buckets (sizes_of S.Shape) }
    {
        BucketWord::of(self.table.shared.peek(self.bucket_at(bucket)))
    }

    /// Loads a word of each cache line of the page with this number, where there is such a page. It leaves nothing that a
    /// clause could name.
    #[inline(always)]
    pub fn peek_page(&self, page: u64) {
        self.is_sound();
        let page_words = 4 * (S::WORDS + 1);
        let first = pages_front::<S>().wrapping_add(
            (page as usize).wrapping_sub(1).wrapping_mul(page_words),
        );
        for line in 0..(S::WORDS + 2) / 2 {
            let at = first.wrapping_add(line.wrapping_mul(LINE));
            if at < self.table.word_count() {
                let _ = self.table.shared.peek(at);
            }
        }
    }
    /// How many pages were ever handed out, as it stood at some time during this load, which no caller notes: a promise
    /// rests on no part of it.
    pub fn peek_used(&self) -> u64 {
        self.is_sound();
        self.table.shared.peek(USED_MARK)
    }
}
