//! The expiry of updates that have none.
ghost use Rattle.std.specs.Prelude.{false};

use bihash_words::Expiry;

/// No value is expired.
pub(crate) struct Never;

impl Expiry for Never {
    ghost is_expired = { λ _ _. false };

    fn expired(&self, _value: u64) -> bool {
        false
    }
}
