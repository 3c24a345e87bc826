//! The word of a bucket: what one load tells of its block, its lock and its version.
ghost use Rattle.std.specs.Prelude.{◌≡◌, ◌<◌, ◌+◌, ◌-◌, ◌^◌, true, false};
ghost use Rattle.bihash_words.specs.Words.{Bucket, FitsWord, packed, version_of};

use crate::block_size::BlockSize;
use std::marker::Model;

/// The word of a bucket. From the lowest bit: 24 bits for the number of its block's first page, 0 for
/// none; 5 for the log2 of the block's pages; the linear mark; the lock bit; 33 for the version.
#[derive(Clone, Copy, Debug, PartialEq, Eq)]
pub struct BucketWord(u64);

impl Model for BucketWord {
    ghost use Rattle.std.specs.Prelude.{ℕ};

    ghost Value = { ℕ };

    ghost view = { λ w. w.0 };

    ghost inverse = { λ n. record { 0 = n } };
}

impl BucketWord {
    /// A word as it was loaded.
    pub const fn of(word: u64) -> BucketWord
        ensures { result ≡ word }
    {
        BucketWord(word)
    }

    /// The word as it is stored.
    pub fn to_word(self) -> u64
        ensures { result ≡ self }
    {
        self.0
    }

    /// The word of these fields.
    pub fn pack(page: u64, size: BlockSize, locked: bool, version: u64) -> BucketWord
        requires page { page < 2 ^ 24 }
        requires log2 { size.log2 < 2 ^ 5 }
        requires version { version < 2 ^ 33 }
        ensures { result ≡ packed (record { page = page; log2 = size.log2; linear = size.linear; locked = locked; version = version }) }
    {
        let linear = u64::from(size.linear);
        let locked = u64::from(locked);
        BucketWord(page + (size.log2 << 24) + (linear << 29) + (locked << 30) + (version << 31))
    }

    /// The number of the block's first page, 0 where the bucket has no block.
    pub fn page(self) -> u64
        ensures { (b : Bucket) → FitsWord b → self ≡ packed b → result ≡ b.page }
    {
        self.0 & 0xff_ffff
    }

    /// The log2 of the block's pages.
    pub fn log2(self) -> u64
        ensures { (b : Bucket) → FitsWord b → self ≡ packed b → result ≡ b.log2 }
    {
        (self.0 >> 24) & 31
    }

    /// Whether any place of the block may hold any key of the bucket.
    pub fn linear(self) -> bool
        ensures { (b : Bucket) → FitsWord b → self ≡ packed b → result ≡ b.linear }
    {
        (self.0 >> 29) & 1 == 1
    }

    /// The size of the block, and whether it is linear.
    pub fn block_size(self) -> BlockSize
        ensures { (b : Bucket) → FitsWord b → self ≡ packed b → result ≡ record { log2 = b.log2; linear = b.linear } }
    {
        BlockSize {
            log2: self.log2(),
            linear: self.linear(),
        }
    }

    /// Whether a writer holds the bucket.
    pub fn locked(self) -> bool
        ensures { (b : Bucket) → FitsWord b → self ≡ packed b → result ≡ b.locked }
    {
        (self.0 >> 30) & 1 == 1
    }

    /// How often the bucket's map was changed.
    pub fn version(self) -> u64
        ensures { (b : Bucket) → FitsWord b → self ≡ packed b → result ≡ b.version }
    {
        self.0 >> 31
    }

    /// The same word with its lock bit set.
    pub fn with_lock(self) -> BucketWord
        ensures { (b : Bucket) → FitsWord b → self ≡ packed b → result ≡ packed (record b { locked = true }) }
    {
        if (self.0 >> 30) & 1 == 1 {
            return self;
        }
        BucketWord(self.0 + (1 << 30))
    }

    /// The unlocked word after one more change, with this block.
    pub fn next(self, page: u64, size: BlockSize) -> BucketWord
        requires page { page < 2 ^ 24 }
        requires log2 { size.log2 < 2 ^ 5 }
        requires version { version_of self < 2 ^ 33 - 1 }
        ensures { (b : Bucket) → FitsWord b → self ≡ packed b
            → result ≡ packed (record { page = page; log2 = size.log2; linear = size.linear; locked = false; version = b.version + 1 }) }
    {
        let version = self.0 >> 31;
        BucketWord::pack(page, size, false, version + 1)
    }
}
