//! Places of keys and values that are written into a block.
ghost use Rattle.std.specs.Prelude.{◌≡◌, ◌≢◌, ◌≤◌, ◌+◌, ℕ, List, length};
ghost use Rattle.bihash_words.specs.Sizes.{sizes_of};
ghost use Rattle.bihash_rule.specs.Blocks.{free, places};
ghost use Rattle.bihash_steps.specs.Seats.{with_view};
ghost use Rattle.bihash_rule.specs.declared.view.HeldBlock.{HeldBlock};
ghost use Rattle.bihash_table.specs.inner.Copying.{HasBlock, HoldsOwnBlock, IsPlaced, with_words};
ghost use Rattle.bihash_rule.specs.Places.{ArePlaces};

use crate::block_place_count::FREE;
use bihash_steps::{CallerSeat, Row};
use bihash_words::Shape;

/// Writes places into the block that the caller holds, which begins at this page and has as many.
pub(crate) fn write_block<S: Shape>(
    row: &Row<S>,
    seat: &mut CallerSeat<S>,
    page: u64,
    block: &[(S::Key, u64)],
)
    requires held { HoldsOwnBlock (sizes_of S.Shape) row.now seat.old page 0 }
    requires whole { (h : HeldBlock) → HasBlock (sizes_of S.Shape) seat.old.view page h → length block.now ≡ places page h.log2 }
    ensures { (h : HeldBlock) → HasBlock (sizes_of S.Shape) seat.old.view page h
        → (words : List ℕ) × (seat.new ≡ with_view seat.old (with_words seat.old.view h words))
        × ArePlaces ⟦<S as Shape>⟧ block.now words }
{
    for place in 0..block.len() {
        let (key, value) = &block[place];
        write_place(row, seat, page, place, key, *value);
    }
}

/// Writes a value and, unless the place becomes free, a key at a place of the block that the caller holds.
fn write_place<S: Shape>(
    row: &Row<S>,
    seat: &mut CallerSeat<S>,
    page: u64,
    place: usize,
    key: &S::Key,
    value: u64,
)
    requires { HoldsOwnBlock (sizes_of S.Shape) row.now seat.old page (place + 1) }
    ensures { (h : HeldBlock) → HasBlock (sizes_of S.Shape) seat.old.view page h
        → IsPlaced ⟦<S as Shape>⟧ seat.old seat.new h place key.now value }
{
    let first = place * (S::WORDS + 1);
    for i in 0..written_word_count::<S>(value) {
        row.store_held(seat, page, first + i, S::word(key, i));
    }
    row.store_held(seat, page, first + S::WORDS, value);
}

/// How many words of a key are written at a place with this value. A store costs far more than a load, and the key of a
/// free place means nothing.
fn written_word_count<S: Shape>(value: u64) -> usize
    ensures few { result ≤ S.WORDS }
    ensures all { value ≢ free → result ≡ S.WORDS }
{
    if value == FREE {
        return 0;
    }
    S::WORDS
}
