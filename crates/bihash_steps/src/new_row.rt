//! New rows.
ghost use Rattle.std.specs.Prelude.{◌≡◌, IfOk};
ghost use Rattle.bihash_words.specs.Sizes.{sizes_of, IsSound};
ghost use Rattle.bihash_rule.specs.Words.{IsFresh};
ghost use Rattle.bihash_rule.specs.Callers.{IsLawfulCaller};
ghost use Rattle.bihash_rule.specs.Views.{first_view};

use crate::create_fault::CreateFault;
use crate::row_and_callers::{Caller, CallerSeat, Row};
use crate::row_layout::row_words;
use crate::scratch::Scratch;
use atomic_table::Table;
use bihash_words::Shape;
use std::alloc::{AllocError, Global};
use std::marker::PhantomData;

// The words with which a new row begins, as no caller has used them: one caller is counted, and all else is 0.
fn fresh_words<S: Shape>(alloc: Global) -> Result<Vec<u64>, AllocError>
    requires sound { IsSound (sizes_of S.Shape) }
    ensures { IfOk result (λ w. IsFresh (sizes_of S.Shape) w.items) }
{
    let mut words = Vec::new(alloc);
    words.push(1)?;
    words.resize(row_words::<S>(), 0)?;
    Ok(words)
}

/// A new row and its caller 1, which is lone and has made no call. `Memory`: memory was refused.
pub fn open_row<S: Shape>(alloc: Global) -> Result<(Row<S>, Caller<S>), CreateFault>
    requires sound { IsSound (sizes_of S.Shape) }
    ensures first { IfOk result (λ r. (r.1.seat.row ≡ r.0) × (r.1.seat.view ≡ first_view (sizes_of S.Shape))) }
    ensures lawful { IfOk result (λ r. IsLawfulCaller (sizes_of S.Shape) r.1.seat.view) }
{
    let scratch = Scratch::reserve(alloc)?;
    let words = fresh_words::<S>(alloc)?;
    let (table, seat) = Table::of_words(alloc, words.as_slice(), &None)?;
    let row = Row { table };
    let seat = CallerSeat {
        seat,
        numbers: 1,
        stamp: None,
        shape: PhantomData,
    };
    Ok((row, Caller { seat, scratch }))
}
