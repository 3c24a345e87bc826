//! The bucket of a key, by the kind of its table.
ghost use Rattle.std.specs.Prelude.{◌≡◌};
ghost use Rattle.bihash_words.specs.Sizes.{bucket_of};
ghost use Rattle.bihash_c.specs.Kinds.{sizes_in, words_in};
ghost use Rattle.bihash_c.specs.Options.{BucketTold};

use crate::options::{Kind, Options, kind_of};
use crate::pair::Key;
use bihash_words::{
    LargeV4, LargeV6, ShapeV4, ShapeV6, bucket_of, flow_shapes_are_sound, large_shapes_are_sound,
};

/// The number that no bucket has.
pub const NO_BUCKET: u64 = u64::MAX;

// The bucket of a key in a table of this kind.
fn bucket_in(kind: Kind, key: &Key) -> u64
    ensures { result ≡ bucket_of (sizes_in kind) (words_in kind key.now) }
{
    flow_shapes_are_sound();
    large_shapes_are_sound();
    match kind {
        Kind::Two => bucket_of::<ShapeV4>(key.two()),
        Kind::LargeTwo => bucket_of::<LargeV4>(key.two()),
        Kind::Five => bucket_of::<ShapeV6>(&key.words),
        Kind::LargeFive => bucket_of::<LargeV6>(&key.words),
    }
}

/// The bucket of a key in a table of the kind that is meant, and the number that no bucket has where none is. The rest are the bytes
/// of the options behind those that are known.
#[unsafe(no_mangle)]
pub extern "C" fn bihash_bucket_of_with(options: &Options, rest: &[u8], key: &Key) -> u64
    ensures { BucketTold options.now rest.now key.now result }
{
    match kind_of(options, rest) {
        Some(kind) => bucket_in(kind, key),
        None => NO_BUCKET,
    }
}
