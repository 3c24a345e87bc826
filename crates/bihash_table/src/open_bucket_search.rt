//! Searches of the block of an open bucket. What they find holds on the condition that the words they
//! load are the block's, which a step on the bucket's word tells afterwards.
ghost use Rattle.std.specs.Prelude.{◌≡◌, ◌+◌, ◌*◌, ◌^◌, ◌<◌, ◌≤◌, slice_index};
ghost use Rattle.bihash_words.specs.Sizes.{sizes_of};
ghost use Rattle.bihash_rule.specs.Words.{place_words};
ghost use Rattle.bihash_table.specs.inner.Scans.{NamesBlock, AreOpenPages};
ghost use Rattle.bihash_table.specs.inner.OpenReads.{HasRead, MayRead, LastWordTells, AreMarks, first_set, later_set, set_count, TellsValue, IsPairAmong, IsPairIn, IsFirstFreeIn, OtherPairTells, value_of};

use crate::block_place_count::{FREE, PAGE_PLACES, place_count};
use crate::hashed_key::HashedKey;
use bihash_plan::page_count;
use bihash_steps::{CallerSeat, Row};
use bihash_words::{BucketWord, Shape};

/// The place of the key's pair in the block of the open bucket, and its value. In a block that isn't
/// linear the four places of one page are looked at.
#[inline(always)]
pub(crate) fn pair_in_open_bucket<S: Shape>(
    row: &Row<S>,
    seat: &mut CallerSeat<S>,
    word: BucketWord,
    hashed: &HashedKey<'_, S>,
) -> Option<(usize, u64)>
    requires { MayRead (sizes_of S.Shape) row.now seat.old word 0 }
    ensures { HasRead seat.old seat.new (IsPairIn (sizes_of S.Shape) (S.words_of hashed.now.key.now) result) }
{
    row.is_sound();
    if !word.linear() {
        let (from, to) = open_pages(word, hashed);
        if from == to {
            return None;
        }
        if from + 1 == to {
            return pair_in_page(row, seat, word, from, hashed);
        }
    }
    pair_in_pages(row, seat, word, hashed)
}

/// The value of the pair that a search of an open bucket's block found.
pub(crate) fn value_found(pair: Option<(usize, u64)>) -> Option<u64>
    ensures { result ≡ value_of pair }
{
    let (_, value) = pair?;
    Some(value)
}

/// The first free place that is open to the key in the block of the open bucket.
pub(crate) fn room_in_open_bucket<S: Shape>(
    row: &Row<S>,
    seat: &mut CallerSeat<S>,
    word: BucketWord,
    hashed: &HashedKey<'_, S>,
) -> Option<usize>
    requires { MayRead (sizes_of S.Shape) row.now seat.old word 0 }
    ensures { HasRead seat.old seat.new (IsFirstFreeIn (sizes_of S.Shape) (S.words_of hashed.now.key.now) result) }
{
    row.is_sound();
    let (from, to) = open_pages(word, hashed);
    for place in PAGE_PLACES * from..PAGE_PLACES * to {
        if load_word(row, seat, word, place, S::WORDS) == FREE {
            return Some(place);
        }
    }
    None
}

/// Whether a pair is at another place of the open bucket's block.
pub(crate) fn has_other_in_open_bucket<S: Shape>(
    row: &Row<S>,
    seat: &mut CallerSeat<S>,
    word: BucketWord,
    place: usize,
) -> bool
    requires { MayRead (sizes_of S.Shape) row.now seat.old word 0 }
    ensures { HasRead seat.old seat.new (OtherPairTells (sizes_of S.Shape) place result) }
{
    row.is_sound();
    for k in 0..place_count::<S>(word) {
        if k == place {
            continue;
        }
        if load_word(row, seat, word, k, S::WORDS) != FREE {
            return true;
        }
    }
    false
}

/// Word i of a place of the open bucket's block.
pub(crate) fn load_word<S: Shape>(
    row: &Row<S>,
    seat: &mut CallerSeat<S>,
    word: BucketWord,
    place: usize,
    i: usize,
) -> u64
    requires read { MayRead (sizes_of S.Shape) row.now seat.old word (place + 1) }
    requires inside { i ≤ S.WORDS }
    ensures { HasRead seat.old seat.new (λ _ block. result ≡ slice_index block (place * place_words (sizes_of S.Shape) + i)) }
{
    row.is_sound();
    row.load_open(seat, word.page(), place * (S::WORDS + 1) + i)
}

// The pages of an open block that may hold the key, as the first of them and the one after the last: the
// one that its hash names or, where the block is linear, each.
fn open_pages<S: Shape>(word: BucketWord, hashed: &HashedKey<'_, S>) -> (usize, usize)
    requires { NamesBlock (sizes_of S.Shape) word }
    ensures { AreOpenPages (sizes_of S.Shape) word (S.words_of hashed.now.key.now) result.0 result.1 }
{
    if word.page() == 0 {
        return (0, 0);
    }
    if word.linear() {
        return (0, page_count(word.log2()));
    }
    let page = hashed.page(word.log2());
    (page, page + 1)
}

// The place and the value of the key's pair in a page of an open bucket's block. Where the last word of the key stands
// is found without a branch for each place, and mostly it is at the pair or nowhere.
#[inline(always)]
fn pair_in_page<S: Shape>(
    row: &Row<S>,
    seat: &mut CallerSeat<S>,
    word: BucketWord,
    page: usize,
    hashed: &HashedKey<'_, S>,
) -> Option<(usize, u64)>
    requires read { MayRead (sizes_of S.Shape) row.now seat.old word (4 * (page + 1)) }
    requires few { page < 2 ^ 24 }
    ensures { HasRead seat.old seat.new (IsPairAmong (sizes_of S.Shape) (S.words_of hashed.now.key.now) (4 * page) (4 * (page + 1)) result) }
{
    let first = PAGE_PLACES * page;
    let mut marks = search_marks(row, seat, word, first, hashed);
    'marked: while count_search_marks(marks) > 0 {
        let place = first + first_search_mark(marks);
        if let Some(value) = value_at(row, seat, word, place, hashed) {
            return Some((place, value));
        }
        marks = later_search_marks(marks);
    }
    None
}

// The place and the value of the key's pair in an open bucket's block, page by page, as a linear block wants it.
#[inline(never)]
fn pair_in_pages<S: Shape>(
    row: &Row<S>,
    seat: &mut CallerSeat<S>,
    word: BucketWord,
    hashed: &HashedKey<'_, S>,
) -> Option<(usize, u64)>
    requires { MayRead (sizes_of S.Shape) row.now seat.old word 0 }
    ensures { HasRead seat.old seat.new (IsPairIn (sizes_of S.Shape) (S.words_of hashed.now.key.now) result) }
{
    row.is_sound();
    let (from, to) = open_pages(word, hashed);
    for page in from..to {
        if let Some(pair) = pair_in_page(row, seat, word, page, hashed) {
            return Some(pair);
        }
    }
    None
}

// How many of the four marks are set that a search of an open bucket's page makes. Their sum is compared at once.
fn count_search_marks(marks: (bool, bool, bool, bool)) -> u64
    ensures { result ≡ set_count marks }
{
    let (a, b, c, d) = marks;
    u64::from(a) + u64::from(b) + u64::from(c) + u64::from(d)
}

// Which of the four marks that a search of an open bucket's page makes is the first that is set, where one is.
fn first_search_mark(marks: (bool, bool, bool, bool)) -> usize
    ensures first { result ≡ first_set marks }
    ensures inside { result < 4 }
{
    let (a, b, c, _) = marks;
    if a {
        0
    } else if b {
        1
    } else if c {
        2
    } else {
        3
    }
}

// The marks that a search of an open bucket's page makes, but the first that is set.
fn later_search_marks(marks: (bool, bool, bool, bool)) -> (bool, bool, bool, bool)
    ensures { result ≡ later_set marks }
{
    let (a, b, c, d) = marks;
    (false, a && b, (a || b) && c, (a || b || c) && d)
}

// At which of the four places of a page of an open bucket's block the last word of the searched key stands.
fn search_marks<S: Shape>(
    row: &Row<S>,
    seat: &mut CallerSeat<S>,
    word: BucketWord,
    first: usize,
    hashed: &HashedKey<'_, S>,
) -> (bool, bool, bool, bool)
    requires { MayRead (sizes_of S.Shape) row.now seat.old word (first + 4) }
    ensures { HasRead seat.old seat.new (AreMarks (sizes_of S.Shape) (S.words_of hashed.now.key.now) first result) }
{
    let a = search_mark(row, seat, word, first, hashed);
    let b = search_mark(row, seat, word, first + 1, hashed);
    let c = search_mark(row, seat, word, first + 2, hashed);
    let d = search_mark(row, seat, word, first + 3, hashed);
    (a, b, c, d)
}

// One mark of a search: whether the last word of the searched key is at a place of the open bucket's block.
fn search_mark<S: Shape>(
    row: &Row<S>,
    seat: &mut CallerSeat<S>,
    word: BucketWord,
    place: usize,
    hashed: &HashedKey<'_, S>,
) -> bool
    requires { MayRead (sizes_of S.Shape) row.now seat.old word (place + 1) }
    ensures { HasRead seat.old seat.new (LastWordTells (sizes_of S.Shape) (S.words_of hashed.now.key.now) place result) }
{
    row.is_sound();
    load_word(row, seat, word, place, S::WORDS - 1) == hashed.last
}

// The value of the searched key's pair at a place of the open bucket's block where the last word of the key stands. A
// free place may show the words of any key.
fn value_at<S: Shape>(
    row: &Row<S>,
    seat: &mut CallerSeat<S>,
    word: BucketWord,
    place: usize,
    hashed: &HashedKey<'_, S>,
) -> Option<u64>
    requires { MayRead (sizes_of S.Shape) row.now seat.old word (place + 1) }
    ensures { HasRead seat.old seat.new (TellsValue (sizes_of S.Shape) (S.words_of hashed.now.key.now) place result) }
{
    row.is_sound();
    for i in 0..S::WORDS - 1 {
        if load_word(row, seat, word, place, i) != S::word(hashed.key, i) {
            return None;
        }
    }
    let value = load_word(row, seat, word, place, S::WORDS);
    if value == FREE {
        return None;
    }
    Some(value)
}
