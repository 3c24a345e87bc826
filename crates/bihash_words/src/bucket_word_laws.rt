//! What holds of every word. The functions do nothing: their contracts are the laws.
ghost use Rattle.std.specs.Prelude.{◌≡◌, ◌<◌, ◌^◌, ℕ};
ghost use Rattle.bihash_words.specs.Words.{Bucket, FitsWord, packed};

/// A word holds one bucket's fields, and every word some bucket's.
pub fn words_pack_exactly()
    ensures once { (a b : Bucket) → FitsWord a → FitsWord b → packed a ≡ packed b → a ≡ b }
    ensures each { (word : ℕ) → word < 2 ^ 64 → (b : Bucket) × FitsWord b × (word ≡ packed b) }
{}
