//! Looks at a bucket's word, and its lock.
ghost use Rattle.std.specs.Prelude.{◌≡◌, ◌<◌};
ghost use Rattle.bihash_words.specs.Sizes.{sizes_of};
ghost use Rattle.bihash_rule.specs.Words.{buckets};
ghost use Rattle.bihash_steps.specs.CallerCalls.{IsIdle};
ghost use Rattle.bihash_table.specs.inner.OpenReads.{HasOpen};
ghost use Rattle.bihash_table.specs.inner.Seen.{TellsLockTry, TellsUnchanged, TellsUnlocked};

use bihash_steps::{CallerSeat, Row};
use bihash_words::{BucketWord, Shape};

/// The word of a bucket that no other caller has locked, whose block may be read then.
pub(crate) fn load_unlocked<S: Shape>(
    row: &Row<S>,
    seat: &mut CallerSeat<S>,
    bucket: usize,
) -> Option<BucketWord>
    requires idle { IsIdle row.now seat.old }
    requires inside { bucket < buckets (sizes_of S.Shape) }
    ensures { TellsUnlocked (sizes_of S.Shape) seat.old seat.new bucket result }
{
    let word = row.load_bucket(seat, bucket);
    if word.locked() {
        return None;
    }
    Some(word)
}

/// Whether a bucket that was seen has still the word that it was seen with. What was read of its block since holds
/// then.
pub(crate) fn is_unchanged<S: Shape>(
    row: &Row<S>,
    seat: &mut CallerSeat<S>,
    bucket: usize,
    word: BucketWord,
) -> bool
    requires own { seat.old.row ≡ row.now }
    requires seen { HasOpen (sizes_of S.Shape) seat.old.view bucket word }
    ensures { TellsUnchanged (sizes_of S.Shape) seat.old seat.new bucket result }
{
    let now = row.load_bucket(seat, bucket);
    now.to_word() == word.to_word()
}

/// Locks a bucket that was seen, from the word that it was seen with. What was read of its block since holds
/// then.
pub(crate) fn lock_if_unchanged<S: Shape>(
    row: &Row<S>,
    seat: &mut CallerSeat<S>,
    bucket: usize,
    word: BucketWord,
) -> bool
    requires own { seat.old.row ≡ row.now }
    requires seen { HasOpen (sizes_of S.Shape) seat.old.view bucket word }
    ensures { TellsLockTry (sizes_of S.Shape) seat.old seat.new bucket word result }
{
    row.lock_from(seat, bucket, word)
}
