//! The calls on keys and buckets of what is behind a handle, whichever kind its table has.
ghost use Rattle.std.specs.Prelude.{◌≡◌};
ghost use Rattle.bihash_c.specs.AnyContents.{Calls, HasCaller};
ghost use Rattle.bihash_c.specs.Contents.{ExpireTold, RecycleTold, SearchTold, UpdateTold};
ghost use Rattle.bihash_c.specs.Kinds.{shape_of, sizes_in, words_in};

use crate::answer_numbers::Answer;
use crate::any_content_callers::AnyContent;
use crate::pair::Key;
use bihash_words::{Expiry, Patch};

impl AnyContent {
    /// One try of a search.
    #[inline(always)]
    pub fn search(&mut self, key: &Key) -> Answer
        requires { HasCaller self.old }
        ensures { Calls self.old self.new (λ kind. SearchTold (shape_of kind) (words_in kind key.now) result) }
    {
        match self {
            AnyContent::Two(content) => content.search(key.two()),
            AnyContent::LargeTwo(content) => content.search(key.two()),
            AnyContent::Five(content) => content.search(&key.words),
            AnyContent::LargeFive(content) => content.search(&key.words),
        }
    }

    /// One try of an update.
    #[inline(always)]
    pub fn update<P: Patch>(&mut self, key: &Key, patch: &P) -> Answer
        requires { HasCaller self.old }
        ensures { Calls self.old self.new
            (λ kind. UpdateTold (shape_of kind) (words_in kind key.now) (P.decision patch.now) result) }
    {
        match self {
            AnyContent::Two(content) => content.update(key.two(), patch),
            AnyContent::LargeTwo(content) => content.update(key.two(), patch),
            AnyContent::Five(content) => content.update(&key.words, patch),
            AnyContent::LargeFive(content) => content.update(&key.words, patch),
        }
    }

    /// One try of an update with an expiry.
    #[inline(always)]
    pub fn add_or_recycle<P: Patch, E: Expiry>(
        &mut self,
        key: &Key,
        patch: &P,
        expiry: &E,
    ) -> Answer
        requires { HasCaller self.old }
        ensures { Calls self.old self.new (λ kind. RecycleTold (shape_of kind) (words_in kind key.now)
            (P.decision patch.now) (E.is_expired expiry.now) result) }
    {
        match self {
            AnyContent::Two(content) => content.add_or_recycle(key.two(), patch, expiry),
            AnyContent::LargeTwo(content) => content.add_or_recycle(key.two(), patch, expiry),
            AnyContent::Five(content) => content.add_or_recycle(&key.words, patch, expiry),
            AnyContent::LargeFive(content) => content.add_or_recycle(&key.words, patch, expiry),
        }
    }

    /// One try of a look at a bucket for an expired pair.
    pub fn expire<E: Expiry>(&mut self, bucket: u64, expiry: &E) -> Answer
        requires { HasCaller self.old }
        ensures { Calls self.old self.new
            (λ kind. ExpireTold (sizes_in kind) bucket (E.is_expired expiry.now) result) }
    {
        match self {
            AnyContent::Two(content) => content.expire(bucket, expiry),
            AnyContent::LargeTwo(content) => content.expire(bucket, expiry),
            AnyContent::Five(content) => content.expire(bucket, expiry),
            AnyContent::LargeFive(content) => content.expire(bucket, expiry),
        }
    }
}
