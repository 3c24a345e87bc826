//! The shape of a table: how large it is, and what its keys are.
ghost use Rattle.std.specs.Prelude.{◌≡◌, ◌<◌, ℕ, List, length, slice_index};

/// How many places a page has.
pub const PAGE_PLACES: usize = 4;

/// How large a table is, and what its keys are. A key is seen as its words, which a table stores.
///
/// Each constant has a ghost member of its name, so that contracts can speak of it.
pub trait Shape {
    /// The words of a key.
    const WORDS: usize;
    /// The log2 of the number of buckets.
    const LOG2_BUCKETS: u64;
    /// The pages that blocks are made of.
    const PAGES: u64;
    /// The log2 of the most pages in a block.
    const MAX_LOG2: u64;
    /// The most changes of a bucket's map.
    const LIMIT: u64;
    /// The most callers of a table.
    const CALLERS: u64;

    type Key: Copy;

    ghost WORDS: { ℕ };

    ghost LOG2_BUCKETS: { ℕ };

    ghost PAGES: { ℕ };

    ghost MAX_LOG2: { ℕ };

    ghost LIMIT: { ℕ };

    ghost CALLERS: { ℕ };

    /// The words of a key.
    ghost words_of: { Self.Key → List ℕ };

    /// The key of words.
    ghost key_of: { List ℕ → Self.Key };

    /// The hash of a key's words.
    ghost hash_of_words: { List ℕ → ℕ };

    /// The hash of a key. Its lowest bits name the bucket, the next ones the page in the bucket's block.
    fn hash(key: &Self::Key) -> u64
        ensures hash { result ≡ hash_of_words (words_of key.now) }
        ensures counted { length (words_of key.now) ≡ WORDS };

    /// A word of a key, counted from 0.
    fn word(key: &Self::Key, i: usize) -> u64
        requires { i < WORDS }
        ensures word { result ≡ slice_index (words_of key.now) i }
        ensures counted { length (words_of key.now) ≡ WORDS };

    /// The key of these words.
    fn key(words: &[u64]) -> Self::Key
        requires { length words.now ≡ WORDS }
        ensures { result ≡ key_of words.now };

    /// A key is the key of its words, so keys of equal words are equal.
    ghost key_of_words: { (k : Self.Key) → key_of (words_of k) ≡ k };

    /// The words of a key of words are those words.
    ghost words_of_key: { (w : List ℕ) → length w ≡ WORDS → words_of (key_of w) ≡ w };
}
