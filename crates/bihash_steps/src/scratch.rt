//! The lists that a caller works with while it splits a block.
ghost use Rattle.std.specs.Prelude.{◌≡◌, ◌*◌, ◌^◌, ◌≤◌, length};

use bihash_words::{FREE, Shape};
use std::alloc::{AllocError, Global};

/// Room for all pairs of a bucket twice: as they stood, and as they will stand.
#[derive(Drop)]
pub struct Scratch<S: Shape> {
    pub old_places: Vec<(S::Key, u64)>,
    pub new_places: Vec<(S::Key, u64)>,
    pub ghost old_room: { length old_places.items ≡ 4 * 2 ^ S.MAX_LOG2 },
    pub ghost new_room: { length new_places.items ≡ 4 * 2 ^ S.MAX_LOG2 },
}

impl<S: Shape> Scratch<S> {
    // Room for a caller's working copy of a bucket: both lists, with a place for each pair that a bucket may have.
    pub(crate) fn reserve(alloc: Global) -> Result<Scratch<S>, AllocError>
        requires few { S.MAX_LOG2 ≤ 24 }
        requires short { S.WORDS ≤ 8 }
    {
        let places = 4 << S::MAX_LOG2;
        let no_words = [0; 8];
        let no_pair = (S::key(&no_words[..S::WORDS]), FREE);
        let old_places = Vec::from_elem(alloc, no_pair, places)?;
        let new_places = Vec::from_elem(alloc, no_pair, places)?;
        Ok(Scratch {
            old_places,
            new_places,
        })
    }
}
