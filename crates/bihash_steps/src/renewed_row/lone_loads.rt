//! What a load by a lone caller tells it.
ghost use Rattle.bihash_words.specs.Sizes.{sizes_of};
ghost use Rattle.bihash_steps.specs.Renewals.{TellsRowWord};

use atomic_table::Play;
use bihash_rule::View;
use bihash_words::Shape;
use std::marker::PhantomData;

/// A load of the next word of a row.
pub(crate) struct LoneLoads<S> {
    shape: PhantomData<S>,
}

impl<S: Shape> Play<(), View> for LoneLoads<S> {
    ghost then = { λ _. TellsRowWord (sizes_of S.Shape) };
}
