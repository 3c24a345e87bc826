//! What holds of the hash. The functions do nothing: their contracts are the laws.
ghost use Rattle.std.specs.Prelude.{◌≡◌};
ghost use Rattle.bihash_words.specs.Hash.{mix};

/// The mixing step of the hash takes three words to the published values.
pub fn mix_has_its_published_values()
    ensures zero { mix 0 ≡ 0 }
    ensures first { mix 0x9e3779b97f4a7c15 ≡ 0xe220a8397b1dcdaf }
    ensures second { mix 0x3c6ef372fe94f82a ≡ 0x6e789e6aa1b965f4 }
{}
