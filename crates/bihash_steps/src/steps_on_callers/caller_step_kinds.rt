//! What each kind of step tells its caller.
ghost use Rattle.std.specs.Prelude.{ℕ};
ghost use Rattle.bihash_words.specs.Sizes.{sizes_of};
ghost use Rattle.bihash_steps.specs.Steps.{TellsCount, TellsNumber, first_numbers, other_numbers, joining, view_after_spending, TellsAgreement};

use atomic_table::{Join, Play, Split};
use bihash_rule::View;
use bihash_words::Shape;
use std::marker::{Brand, PhantomData};

/// A load of the caller count.
pub(crate) struct Counts<S> {
    shape: PhantomData<S>,
}

impl<S: Shape> Play<(), View> for Counts<S> {
    ghost then = { λ _. TellsCount (sizes_of S.Shape) };
}

/// An exchange of the caller count with the next one.
pub(crate) struct Numbers<S> {
    shape: PhantomData<S>,
}

impl<S: Shape> Play<(), View> for Numbers<S> {
    ghost then = { λ step. TellsNumber (sizes_of S.Shape) step.first };
}

/// How many numbers a caller keeps at a cut.
pub(crate) trait Keeping {
    ghost kept: { ℕ };
}

impl Keeping for Brand {
    ghost kept = { 0 };
}

/// A cut of a caller's numbers.
pub(crate) struct Cut<E> {
    kept: PhantomData<E>,
}

impl<E: Keeping> Split<View> for Cut<E> {
    ghost left = { first_numbers E.kept };

    ghost right = { other_numbers E.kept };
}

/// One caller takes in another.
pub(crate) struct Joins<S> {
    shape: PhantomData<S>,
}

impl<S: Shape> Join<View> for Joins<S> {
    ghost both = { joining };

    ghost spent = { view_after_spending (sizes_of S.Shape) };
}

/// A load after a join.
pub(crate) struct Meets<S> {
    shape: PhantomData<S>,
}

impl<S: Shape> Play<(), View> for Meets<S> {
    ghost then = { λ _ me _. TellsAgreement (sizes_of S.Shape) me };
}
