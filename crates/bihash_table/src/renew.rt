//! A table that is opened again: its pairs stay, and its versions begin anew.
ghost use Rattle.std.specs.Prelude.{◌≡◌, IfOk, IfErr};
ghost use Rattle.bihash_words.specs.Sizes.{sizes_of};
ghost use Rattle.bihash_rule.specs.Callers.{IsLawfulCaller};
ghost use Rattle.bihash_steps.specs.Renewals.{AreRowWords, IsRenewed};
ghost use Rattle.bihash_steps.specs.Seats.{with_view};
ghost use Rattle.bihash_steps.specs.CallerCalls.{IsIdle};
ghost use Rattle.bihash_table.specs.Closing.{WasWhole};
ghost use Rattle.bihash_table.specs.Renewing.{IsRenewRefused};
ghost use Rattle.bihash_table.specs.inner.PairLists.{IsIdleAndLone};
ghost use Rattle.bihash_table.specs.inner.RowWords.{HasNoted};

use crate::renew_fault::RenewFault;
use crate::shared_table::Sessions;
use bihash_steps::{Caller, CallerSeat, CreateFault, Row, reopen_row};
use bihash_words::Shape;
use std::alloc::{AllocError, Global};

impl<S: Shape> Sessions<S> {
    /// A table of its own that begins with the pairs of this one, which ends, and its caller 1, which is lone and
    /// has made no call. Pages and returned blocks are as before, also whether these are cut, and no bucket has been
    /// written.
    /// `Strangers`: some caller wasn't joined into this one. `Memory`: memory was refused. Refused, the table
    /// and the caller come back.
    pub fn renew(
        self,
        alloc: Global,
        mut caller: Caller<S>,
    ) -> Result<(Sessions<S>, Caller<S>), (RenewFault, Sessions<S>, Caller<S>)>
        requires { IsIdle self.row caller.seat }
        ensures own { IfOk result (λ r. r.1.seat.row ≡ r.0.row) }
        ensures kept { IfOk result (λ r. r.0.cuts_blocks ≡ self.cuts_blocks) }
        ensures renewed { IfOk result (λ r. IsRenewed (sizes_of S.Shape) caller.seat.view r.1.seat.view) }
        ensures whole { IfOk result (λ _. WasWhole (sizes_of S.Shape) caller.seat.view) }
        ensures begun { IfOk result (λ r. IsLawfulCaller (sizes_of S.Shape) r.1.seat.view) }
        ensures refused { IfErr result (λ r. (r.1.row ≡ self.row) × (r.2.seat ≡ with_view caller.seat r.2.seat.view)
            × IsRenewRefused (sizes_of S.Shape) caller.seat.view r.0 r.2.seat.view) }
        ensures back { IfErr result (λ r. r.1.cuts_blocks ≡ self.cuts_blocks) }
        ensures lawful { IfErr result (λ r. IsLawfulCaller (sizes_of S.Shape) r.2.seat.view) }
    {
        if self.row.load_count(&mut caller.seat) != caller.seat.numbers() {
            return Err((RenewFault::Strangers, self, caller));
        }
        match renew_table(&self.row, &mut caller, alloc) {
            Ok((row, first)) => {
                let cuts_blocks = self.cuts_blocks;
                Ok((Sessions { row, cuts_blocks }, first))
            }
            Err(_) => Err((RenewFault::Memory, self, caller)),
        }
    }
}

/// The row of the renewed table, which begins with what this one came to, and its caller 1.
fn renew_table<S: Shape>(
    row: &Row<S>,
    caller: &mut Caller<S>,
    alloc: Global,
) -> Result<(Row<S>, Caller<S>), CreateFault>
    requires { IsIdleAndLone (sizes_of S.Shape) row.now caller.old.seat }
    ensures noted { HasNoted (sizes_of S.Shape) caller.old.seat caller.new.seat }
    ensures own { IfOk result (λ r. r.1.seat.row ≡ r.0) }
    ensures renewed { IfOk result (λ r. IsRenewed (sizes_of S.Shape) caller.old.seat.view r.1.seat.view) }
    ensures begun { IfOk result (λ r. IsLawfulCaller (sizes_of S.Shape) r.1.seat.view) }
{
    let words = read_words(row, &mut caller.seat, alloc)?;
    reopen_row(alloc, row, caller, words.as_slice())
}

/// Reads all words of a table, to renew or close it; a lone caller notes them.
pub(crate) fn read_words<S: Shape>(
    row: &Row<S>,
    seat: &mut CallerSeat<S>,
    alloc: Global,
) -> Result<Vec<u64>, AllocError>
    requires { IsIdleAndLone (sizes_of S.Shape) row.now seat.old }
    ensures noted { HasNoted (sizes_of S.Shape) seat.old seat.new }
    ensures words { IfOk result (λ words. AreRowWords (sizes_of S.Shape) seat.new.view words.items) }
{
    let count = row.layout_word_count();
    let mut words = Vec::with_capacity(alloc, count)?;
    for at in 0..count {
        words.push(row.load_lone(seat, at))?;
    }
    Ok(words)
}
