//! The hash of a key's words.
ghost use Rattle.std.specs.Prelude.{◌≡◌};
ghost use Rattle.bihash_words.specs.Hash;
ghost use Rattle.bihash_words.specs.Hash.{hash_of};

/// Mixes the bits of a word, for the hash of words. This is the last step of the generator SplitMix64.
pub fn mix(z: u64) -> u64
    ensures { result ≡ Hash.mix z }
{
    let z = (z ^ (z >> 30)).wrapping_mul(0xbf58476d1ce4e5b9);
    let z = (z ^ (z >> 27)).wrapping_mul(0x94d049bb133111eb);
    z ^ (z >> 31)
}

/// The hash of words: each is mixed into what came before it.
pub fn hash_words(words: &[u64]) -> u64
    ensures { result ≡ hash_of words.now }
{
    words.iter().fold(0, |mixed, word| mix(mixed ^ *word))
}
