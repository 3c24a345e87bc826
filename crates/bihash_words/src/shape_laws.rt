//! What holds of every shape here. The functions do nothing: their contracts are the laws.
ghost use Rattle.std.specs.Prelude.{◌≡◌, ◌≤◌, ◌<◌, ◌^◌, slice_index};
ghost use Rattle.bihash_words.specs.Hash.{hash_of};
ghost use Rattle.bihash_words.specs.Sizes.{IsSound, sizes_of};

use crate::flow_shapes::{ShapeV4, ShapeV6};
use crate::shape::Shape;
use crate::tiny_shape::Tiny;

/// The sizes of both shapes of flows.
pub fn flow_shapes_have_their_sizes()
    ensures four { sizes_of ⟦<ShapeV4 as Shape>⟧ ≡ record {
      key_words = 2;
      log2_buckets = 12;
      pages = 16384;
      max_log2 = 6;
      limit = 8589934591;
      callers = 65535;
      hash = hash_of;
    } }
    ensures six { sizes_of ⟦<ShapeV6 as Shape>⟧ ≡ record {
      key_words = 5;
      log2_buckets = 10;
      pages = 4096;
      max_log2 = 6;
      limit = 8589934591;
      callers = 65535;
      hash = hash_of;
    } }
{}

/// The sizes of a small shape, whose keys have their first word as hash.
pub fn tiny_has_its_sizes<const P: u64, const L: u64>()
    ensures { sizes_of ⟦<Tiny<P, L> as Shape>⟧ ≡ record {
      key_words = 2;
      log2_buckets = 1;
      pages = P;
      max_log2 = 2;
      limit = L;
      callers = 64;
      hash = λ words. slice_index words 0;
    } }
{}

/// A table may have the sizes of both shapes of flows.
pub fn flow_shapes_are_sound()
    ensures four { IsSound (sizes_of ⟦<ShapeV4 as Shape>⟧) }
    ensures six { IsSound (sizes_of ⟦<ShapeV6 as Shape>⟧) }
{}

/// A table may have the sizes of a small shape.
pub fn tiny_is_sound<const P: u64, const L: u64>()
    requires some_page { 1 ≤ P }
    requires few_pages { P < 2 ^ 24 }
    requires some_write { 1 ≤ L }
    requires few_writes { L < 2 ^ 33 }
    ensures { IsSound (sizes_of ⟦<Tiny<P, L> as Shape>⟧) }
{}
