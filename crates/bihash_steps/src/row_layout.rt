//! Where the words of a row stand.
ghost use Rattle.std.specs.Prelude.{◌≡◌, ◌+◌, ◌^◌, ◌<◌, ◌≤◌};
ghost use Rattle.bihash_words.specs.Sizes.{sizes_of, IsSound};
ghost use Rattle.bihash_rule.specs.Words;
ghost use Rattle.bihash_rule.specs.Words.{all_words, buckets, list_words};
ghost use Rattle.bihash_steps.specs.StoreSteps;
ghost use Rattle.bihash_steps.specs.StoreSteps.{IsInStore};
ghost use Rattle.bihash_rule.specs.declared.view.PageStore.{PageStore};

use crate::row_and_callers::Row;
use crate::steps_on_page_store::PoolWord;
use bihash_words::Shape;

/// Where the allocation lock stands, and where the used mark does.
pub(crate) const ALLOCATION_LOCK: usize = 1;

pub(crate) const USED_MARK: usize = 2;

// How many words of a row the lists of returned blocks of all smaller log2 have together. Compiled into its callers it
// is a number, so that no step loads where a word stands.
#[inline(always)]
fn lists_words<S: Shape>(log2: u64) -> usize
    requires sound { IsSound (sizes_of S.Shape) }
    requires small { log2 ≤ S.MAX_LOG2 + 1 }
    ensures { result ≡ Words.lists_words (sizes_of S.Shape) log2 }
{
    let mut words = 0;
    for smaller in 0..log2 {
        words += (S::PAGES >> smaller) as usize;
    }
    words
}

/// How many words of a row stand before the bucket words: the counts and locks, and the lists.
#[inline(always)]
pub(crate) fn front_words<S: Shape>() -> usize
    requires sound { IsSound (sizes_of S.Shape) }
    ensures words { result ≡ Words.front_words (sizes_of S.Shape) }
    ensures few { result < 2 ^ 30 }
{
    4 + S::MAX_LOG2 as usize + lists_words::<S>(S::MAX_LOG2 + 1)
}

// Where the word of a bucket stands among the bucket words: at `bucket % 16 * (buckets / 16) + bucket / 16`, made by half as
// many instructions, since `bucket * buckets / 16` is its first part modulo `buckets`. Fewer than 16 stand in their order.
#[inline(always)]
fn bucket_place<S: Shape>(bucket: usize) -> usize
    requires sound { IsSound (sizes_of S.Shape) }
    requires one { bucket < buckets (sizes_of S.Shape) }
    ensures place { result ≡ Words.bucket_place (sizes_of S.Shape) bucket }
    ensures inside { result < buckets (sizes_of S.Shape) }
{
    if S::LOG2_BUCKETS < 4 {
        return bucket;
    }
    let buckets = 1 << S::LOG2_BUCKETS;
    bucket * (buckets + 1) / 16 % buckets
}

/// How many words of a row stand before the page words.
#[inline(always)]
pub(crate) fn pages_front<S: Shape>() -> usize
    requires sound { IsSound (sizes_of S.Shape) }
    ensures words { result ≡ Words.front_words (sizes_of S.Shape) + buckets (sizes_of S.Shape) }
    ensures few { result < 2 ^ 31 }
{
    front_words::<S>() + (1 << S::LOG2_BUCKETS)
}

/// How many words a row has: those before the bucket words, these, and the page words.
pub(crate) fn row_words<S: Shape>() -> usize
    requires sound { IsSound (sizes_of S.Shape) }
    ensures { result ≡ all_words (sizes_of S.Shape) }
{
    let page_words = 4 * (S::WORDS + 1);
    front_words::<S>() + (1 << S::LOG2_BUCKETS) + S::PAGES as usize * page_words
}

impl<S: Shape> Row<S> {
    /// How many words the row has by its layout, which a lone caller loads for a renewed row or a close.
    pub fn layout_word_count(&self) -> usize
        ensures { result ≡ all_words (sizes_of S.Shape) }
    {
        self.table.word_count()
    }

    /// Where the word of a bucket stands among the words of the row.
    pub fn bucket_at(&self, bucket: usize) -> usize
        requires { bucket < buckets (sizes_of S.Shape) }
        ensures place { result ≡ Words.bucket_at (sizes_of S.Shape) bucket }
        ensures inside { result < self.now.words }
    {
        // That the sizes are sound is in the invariant of a row.
        let _ = &self.table;
        front_words::<S>() + bucket_place::<S>(bucket)
    }

    /// Where word k of the block that begins at this page stands among the words of the row.
    pub fn page_at(&self, page: u64, k: usize) -> usize
        requires some_page { 1 ≤ page }
        requires inside { Words.page_at (sizes_of S.Shape) page + k < all_words (sizes_of S.Shape) }
        ensures place { result ≡ Words.page_at (sizes_of S.Shape) page + k }
        ensures inside { result < self.now.words }
    {
        // That the sizes are sound is in the invariant of a row.
        let _ = &self.table;
        pages_front::<S>() + (page - 1) as usize * (4 * (S::WORDS + 1)) + k
    }

    /// Where the count of the returned blocks of this log2 stands among the words of the row.
    pub(crate) fn returned_count_at(&self, log2: u64) -> usize
        requires { log2 ≤ S.MAX_LOG2 }
        ensures place { result ≡ Words.returned_count_at log2 }
        ensures inside { result < self.now.words }
    {
        // That the sizes are sound is in the invariant of a row.
        let _ = &self.table;
        3 + log2 as usize
    }

    /// Where place i in the list of the returned blocks of this log2 stands among the words of the row.
    pub(crate) fn list_at(&self, log2: u64, i: u64) -> usize
        requires small { log2 ≤ S.MAX_LOG2 }
        requires inside { i < list_words (sizes_of S.Shape) log2 }
        ensures place { result ≡ Words.list_at (sizes_of S.Shape) log2 + i }
        ensures inside { result < self.now.words }
    {
        // That the sizes are sound is in the invariant of a row.
        let _ = &self.table;
        4 + S::MAX_LOG2 as usize + lists_words::<S>(log2) + i as usize
    }

    /// Where a word of the page store stands among the words of the row.
    pub(crate) fn pool_word_at(&self, word: PoolWord) -> usize
        requires { (store : PageStore) × IsInStore (sizes_of S.Shape) store word }
        ensures place { result ≡ StoreSteps.pool_word_at (sizes_of S.Shape) word }
        ensures inside { result < self.now.words }
    {
        // That the sizes are sound is in the invariant of a row.
        let _ = &self.table;
        match word {
            PoolWord::Used => USED_MARK,
            PoolWord::Count(log2) => self.returned_count_at(log2),
            PoolWord::Listed(log2, i) => self.list_at(log2, i),
        }
    }
}
