//! Copies of the block of an open bucket, from its words to places of keys and values. They are the
//! block's on the condition that the words they load are.
ghost use Rattle.std.specs.Prelude.{◌≡◌, ◌+◌, length};
ghost use Rattle.bihash_words.specs.Sizes.{sizes_of};
ghost use Rattle.bihash_rule.specs.Places.{ArePlaces};
ghost use Rattle.bihash_table.specs.inner.Scans.{CountsPlaces};
ghost use Rattle.bihash_table.specs.inner.OpenReads.{HasRead, MayRead, StandsAt};

use crate::open_bucket_search::load_word;
use bihash_steps::{CallerSeat, Row};
use bihash_words::{BucketWord, Shape};

/// The most words of a key.
const MOST_WORDS: usize = 8;

/// Reads the places of the open bucket's block.
pub(crate) fn read_block<S: Shape>(
    row: &Row<S>,
    seat: &mut CallerSeat<S>,
    word: BucketWord,
    out: &mut [(S::Key, u64)],
)
    requires read { MayRead (sizes_of S.Shape) row.now seat.old word 0 }
    requires sized { CountsPlaces (sizes_of S.Shape) word (length out.old) }
    ensures sized { length out.new ≡ length out.old }
    ensures read { HasRead seat.old seat.new (λ _ block. ArePlaces ⟦<S as Shape>⟧ out.new block) }
{
    for place in 0..out.len() {
        out[place] = read_place(row, seat, word, place);
    }
}

/// The key and the value of a place of the open bucket's block.
pub(crate) fn read_place<S: Shape>(
    row: &Row<S>,
    seat: &mut CallerSeat<S>,
    word: BucketWord,
    place: usize,
) -> (S::Key, u64)
    requires { MayRead (sizes_of S.Shape) row.now seat.old word (place + 1) }
    ensures { HasRead seat.old seat.new (StandsAt ⟦<S as Shape>⟧ place result) }
{
    row.is_sound();
    let mut words = [0u64; MOST_WORDS];
    for i in 0..S::WORDS {
        words[i] = load_word(row, seat, word, place, i);
    }
    let value = load_word(row, seat, word, place, S::WORDS);
    (S::key(&words[..S::WORDS]), value)
}
