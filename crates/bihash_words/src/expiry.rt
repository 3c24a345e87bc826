//! Which stored values are expired.
ghost use Rattle.std.specs.Prelude.{◌≡◌, ◌<◌, ◌^◌, ℕ, Bool};

/// Which stored values are expired: a new key may take the place of such a pair where a bucket is full.
pub trait Expiry {
    /// Whether a value is expired.
    ghost is_expired: { Self → ℕ → Bool };

    /// Whether this value is expired.
    fn expired(&self, value: u64) -> bool
        ensures told { result ≡ is_expired self.now value }
        // What is asked is a word, which callers can't tell of a number that they read.
        ensures word { value < 2 ^ 64 };
}
