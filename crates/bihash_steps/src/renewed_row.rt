//! A row that begins with what another one came to.
ghost use Rattle.std.specs.Prelude.{◌≡◌, length, IfOk};
ghost use Rattle.bihash_words.specs.Sizes.{sizes_of};
ghost use Rattle.bihash_rule.specs.Words.{all_words, used_mark_of};
ghost use Rattle.bihash_rule.specs.Callers.{IsLawfulCaller};
ghost use Rattle.bihash_rule.specs.Views.{nothing_held};
ghost use Rattle.bihash_steps.specs.Renewals.{AreRenewed, AreRowWords, HaveFields, IsNextWord, IsRenewed, LoadsRowWord};

use crate::create_fault::CreateFault;
use crate::row_and_callers::{Caller, CallerSeat, Row};
use crate::row_beginning::{Beginning, mark};
use crate::scratch::Scratch;
use atomic_table::{Mark, Table};
use bihash_rule::Openings;
use bihash_words::{BucketWord, Shape};
use std::alloc::{AllocError, Global};
use std::marker::{Brand, PhantomData};

mod lone_loads;

use lone_loads::LoneLoads;

impl<S: Shape> Row<S> {
    /// Word `at` of a row of which a renewed one or a close needs all words: a lone caller loads it after those before
    /// it, and notes them until its next step of another kind.
    pub fn load_lone(&self, caller: &mut CallerSeat<S>, at: usize) -> u64
        requires own { caller.old.row ≡ self.now }
        requires next { IsNextWord (sizes_of S.Shape) caller.old.view at }
        ensures { LoadsRowWord (sizes_of S.Shape) caller.old caller.new result }
    {
        self.table.shared.load::<LoneLoads<S>>(&mut caller.seat, at)
    }
}

// The mark that says with what a renewed row begins, as `E` names it: the caller's proof picks it by these words.
fn renewed_mark<E: Beginning, S: Shape>(caller: &CallerSeat<S>, _words: &[u64]) -> Mark<Openings>
    ensures { result.view ≡ E.openings }
{
    mark::<E>(&caller.seat)
}

// The words with which a renewed row begins: those of the old one, with one caller, and with each bucket unlocked and
// at version 0.
fn renewed_words<S: Shape>(
    alloc: Global,
    row: &Row<S>,
    words: &[u64],
) -> Result<Vec<u64>, AllocError>
    requires wide { length words.now ≡ all_words (sizes_of S.Shape) }
    requires fields { HaveFields (sizes_of S.Shape) words.now }
    ensures { IfOk result (λ new. AreRenewed (sizes_of S.Shape) words.now new.items) }
{
    row.is_sound();
    let mut renewed = words.to_vec(alloc)?;
    renewed[0] = 1;
    for bucket in 0..(1usize << S::LOG2_BUCKETS) {
        let at = row.bucket_at(bucket);
        let word = BucketWord::of(words[at]);
        renewed[at] = BucketWord::pack(word.page(), word.block_size(), false, 0).to_word();
    }
    Ok(renewed)
}

/// A renewed row of its own, with the pages and maps of these words, which a lone caller loaded, and its caller 1,
/// which is lone and has made no call. `Memory`: memory was refused.
pub fn reopen_row<S: Shape>(
    alloc: Global,
    row: &Row<S>,
    caller: &Caller<S>,
    words: &[u64],
) -> Result<(Row<S>, Caller<S>), CreateFault>
    requires free { caller.now.seat.view.holds ≡ nothing_held }
    requires words { AreRowWords (sizes_of S.Shape) caller.now.seat.view words.now }
    ensures own { IfOk result (λ r. r.1.seat.row ≡ r.0) }
    ensures renewed { IfOk result (λ r. IsRenewed (sizes_of S.Shape) caller.now.seat.view r.1.seat.view) }
    ensures mark { IfOk result (λ r. r.1.seat.view.known.openings.used ≡ used_mark_of words.now) }
    ensures lawful { IfOk result (λ r. IsLawfulCaller (sizes_of S.Shape) r.1.seat.view) }
{
    row.is_sound();
    let scratch = Scratch::reserve(alloc)?;
    let renewed = renewed_words(alloc, row, words)?;
    let began = Some(renewed_mark::<Brand, S>(&caller.seat, words));
    let (table, seat) = Table::of_words(alloc, renewed.as_slice(), &began)?;
    let row = Row { table };
    let seat = CallerSeat {
        seat,
        numbers: 1,
        stamp: None,
        shape: PhantomData,
    };
    Ok((row, Caller { seat, scratch }))
}
