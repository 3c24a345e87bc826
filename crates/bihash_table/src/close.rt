//! The end of a table: all its pairs, in the order of their keys.
ghost use Rattle.std.specs.Prelude.{◌≡◌, ◌+◌, ◌≤◌, IfOk, IfErr, IsPermutation};
ghost use Rattle.std.specs.Ordering.{is_lt, nat_cmp};
ghost use Rattle.std.specs.Cmp.Lexicographic.{slice_cmp};
ghost use Rattle.std.specs.List.Sorted.{IsSortedBy};
ghost use Rattle.bihash_words.specs.Sizes.{sizes_of};
ghost use Rattle.bihash_rule.specs.Words.{buckets};
ghost use Rattle.bihash_rule.specs.Callers.{IsLawfulCaller};
ghost use Rattle.bihash_steps.specs.Seats.{with_view};
ghost use Rattle.bihash_steps.specs.CallerCalls.{IsIdle};
ghost use Rattle.bihash_table.specs.Closing.{ArePairsOf, IsCloseRefused, WasWhole};
ghost use Rattle.bihash_table.specs.inner.OpenReads.{StandsAt};
ghost use Rattle.bihash_table.specs.inner.PairLists.{AddsBlock, IsIdleAndLone, ListsBuckets};
ghost use Rattle.bihash_table.specs.inner.RowWords.{HasBlockIn, HasNoted, OfBlockIn};

use crate::block_place_count::{FREE, place_count};
use crate::close_fault::CloseFault;
use crate::renew::read_words;
use crate::shared_table::Sessions;
use bihash_steps::{Caller, CallerSeat, Row};
use bihash_words::{BucketWord, Shape, compare};
use std::alloc::{AllocError, Global};

impl<S: Shape> Sessions<S> {
    /// The pairs of the table, which ends, sorted by the words of their keys, first word first.
    /// `Strangers`: some caller wasn't joined into this one. `Memory`: memory was refused. Refused, the
    /// table and the caller come back.
    pub fn close(
        self,
        alloc: Global,
        mut caller: Caller<S>,
    ) -> Result<Vec<(S::Key, u64)>, (CloseFault, Sessions<S>, Caller<S>)>
        requires { IsIdle self.row caller.seat }
        ensures pairs { IfOk result (λ ps. ArePairsOf ⟦<S as Shape>⟧ caller.seat.view.known ps.items) }
        ensures whole { IfOk result (λ _. WasWhole (sizes_of S.Shape) caller.seat.view) }
        ensures refused { IfErr result (λ r. (r.1.row ≡ self.row) × (r.2.seat ≡ with_view caller.seat r.2.seat.view)
            × IsCloseRefused (sizes_of S.Shape) caller.seat.view r.0 r.2.seat.view) }
        ensures back { IfErr result (λ r. r.1.cuts_blocks ≡ self.cuts_blocks) }
        ensures lawful { IfErr result (λ r. IsLawfulCaller (sizes_of S.Shape) r.2.seat.view) }
    {
        self.row.is_sound();
        if self.row.load_count(&mut caller.seat) != caller.seat.numbers() {
            return Err((CloseFault::Strangers, self, caller));
        }
        match read_all(&self.row, &mut caller.seat, alloc) {
            Ok(mut pairs) => {
                sort_closed_pairs::<S>(&mut pairs);
                Ok(pairs)
            }
            Err(_) => Err((CloseFault::Memory, self, caller)),
        }
    }
}

/// The pairs of all buckets of a table that is closed, one bucket after the other.
fn read_all<S: Shape>(
    row: &Row<S>,
    seat: &mut CallerSeat<S>,
    alloc: Global,
) -> Result<Vec<(S::Key, u64)>, AllocError>
    requires { IsIdleAndLone (sizes_of S.Shape) row.now seat.old }
    ensures noted { HasNoted (sizes_of S.Shape) seat.old seat.new }
    ensures pairs { IfOk result (λ ps. ListsBuckets ⟦<S as Shape>⟧ seat.old.view.known (buckets (sizes_of S.Shape)) ps.items) }
{
    row.is_sound();
    let loaded = read_words(row, seat, alloc)?;
    let words = loaded.as_slice();
    let mut pairs = Vec::new(alloc);
    for bucket in 0..(1usize << S::LOG2_BUCKETS) {
        let word = BucketWord::of(words[row.bucket_at(bucket)]);
        read_pairs(row, words, word, &mut pairs)?;
    }
    Ok(pairs)
}

/// Adds to the pairs of a table that is closed those of the block that the word of its bucket names.
fn read_pairs<S: Shape>(
    row: &Row<S>,
    words: &[u64],
    word: BucketWord,
    pairs: &mut Vec<(S::Key, u64)>,
) -> Result<(), AllocError>
    requires { HasBlockIn (sizes_of S.Shape) words.now word 0 }
    ensures { OfBlockIn (sizes_of S.Shape) words.now word (λ e block.
        IfOk result (λ _. AddsBlock ⟦<S as Shape>⟧ e block pairs.old.items pairs.new.items)) }
{
    row.is_sound();
    for place in 0..place_count::<S>(word) {
        let pair = pair_at(row, words, word, place);
        if pair.1 == FREE {
            continue;
        }
        pairs.push(pair)?;
    }
    Ok(())
}

/// The key and the value of a place of a bucket's block, by the words of a table that is closed.
fn pair_at<S: Shape>(row: &Row<S>, words: &[u64], word: BucketWord, place: usize) -> (S::Key, u64)
    requires { HasBlockIn (sizes_of S.Shape) words.now word (place + 1) }
    ensures { OfBlockIn (sizes_of S.Shape) words.now word (StandsAt ⟦<S as Shape>⟧ place result) }
{
    row.is_sound();
    let at = row.page_at(word.page(), place * (S::WORDS + 1));
    let end = at + S::WORDS;
    (S::key(&words[at..end]), words[end])
}

/// Sorts the pairs of a closed table by the words of their keys, in place.
fn sort_closed_pairs<S: Shape>(pairs: &mut Vec<(S::Key, u64)>)
    ensures same { IsPermutation pairs.old.items pairs.new.items }
    ensures sorted { 1 ≤ S.WORDS → IsSortedBy (λ p q. is_lt (slice_cmp nat_cmp (S.words_of p.0) (S.words_of q.0))) pairs.new.items }
{
    pairs.sort_unstable_by(|a, b| compare::<S>(&a.0, &b.0));
}
