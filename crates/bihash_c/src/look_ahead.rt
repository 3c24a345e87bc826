//! Loads ahead of calls on several keys, of which nothing is promised: of the buckets of all, and then of their pages, so
//! that the processor waits for many loads at once.
ghost use Rattle.std.specs.Prelude.{◌≡◌};
ghost use Rattle.bihash_c.specs.AnyContents.{HasCaller};
ghost use Rattle.bihash_c.specs.Handles.{content_in};

use crate::any_content_callers::AnyContent;
use crate::handle::Handle;
use crate::pair::Key;
use bihash_words::{Shape, ShapeV4, ShapeV6};
use std::alloc::Global;

// For how many keys buckets are loaded before the first of their pages is.
const BURST: usize = 32;

// The hashes of these keys, of which a table sees two words.
fn hashes_of_two(keys: &[Key]) -> [u64; BURST] {
    let mut hashes = [0; BURST];
    for i in 0..keys.len().min(BURST) {
        hashes[i] = ShapeV4::hash(keys[i].two());
    }
    hashes
}

// The hashes of these keys, of which a table sees all words.
fn hashes_of_five(keys: &[Key]) -> [u64; BURST] {
    let mut hashes = [0; BURST];
    for i in 0..keys.len().min(BURST) {
        hashes[i] = ShapeV6::hash(&keys[i].words);
    }
    hashes
}

impl AnyContent {
    // Loads what calls on the first 32 of these keys load first.
    fn look_ahead(&self, keys: &[Key])
        requires { HasCaller self.now }
    {
        let count = keys.len().min(BURST);
        match self {
            AnyContent::Two(content) => content.look_ahead(&hashes_of_two(keys)[..count]),
            AnyContent::LargeTwo(content) => content.look_ahead(&hashes_of_two(keys)[..count]),
            AnyContent::Five(content) => content.look_ahead(&hashes_of_five(keys)[..count]),
            AnyContent::LargeFive(content) => content.look_ahead(&hashes_of_five(keys)[..count]),
        }
    }
}

/// Loads what calls on these keys load first. What was loaded is told to nobody.
#[unsafe(no_mangle)]
pub extern "C" fn bihash_look_ahead(alloc: Global, handle: &mut Handle, keys: &[Key])
    requires { HasCaller (content_in handle.old.place) }
    ensures { content_in handle.new.place ≡ content_in handle.old.place }
{
    let place = handle.take(alloc);
    for burst in keys.chunks(BURST) {
        place.as_ref().content.look_ahead(burst);
    }
    handle.put(place);
}
