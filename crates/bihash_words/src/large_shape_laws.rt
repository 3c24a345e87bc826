//! What holds of both large shapes. The functions do nothing: their contracts are the laws.
ghost use Rattle.std.specs.Prelude.{◌≡◌};
ghost use Rattle.bihash_words.specs.Hash.{hash_of};
ghost use Rattle.bihash_words.specs.Sizes.{IsSound, sizes_of};

use crate::large_flow_shapes::{LargeV4, LargeV6};
use crate::shape::Shape;

/// The sizes of both large shapes.
pub fn large_shapes_have_their_sizes()
    ensures four { sizes_of ⟦<LargeV4 as Shape>⟧ ≡ record {
      key_words = 2;
      log2_buckets = 16;
      pages = 262144;
      max_log2 = 6;
      limit = 8589934591;
      callers = 65535;
      hash = hash_of;
    } }
    ensures six { sizes_of ⟦<LargeV6 as Shape>⟧ ≡ record {
      key_words = 5;
      log2_buckets = 16;
      pages = 262144;
      max_log2 = 6;
      limit = 8589934591;
      callers = 65535;
      hash = hash_of;
    } }
{}

/// A table may have the sizes of both large shapes.
pub fn large_shapes_are_sound()
    ensures four { IsSound (sizes_of ⟦<LargeV4 as Shape>⟧) }
    ensures six { IsSound (sizes_of ⟦<LargeV6 as Shape>⟧) }
{}
