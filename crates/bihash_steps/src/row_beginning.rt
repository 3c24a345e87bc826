//! With what a row begins, as a value that proofs alone read: it takes no memory.
ghost use Rattle.std.specs.Prelude.{◌≡◌};
ghost use Rattle.bihash_rule.specs.Views.{no_openings};
ghost use Rattle.bihash_rule.specs.declared.view.Openings.{Openings};

use atomic_table::{Mark, PerchRule, RuledPerch, Seat};
use bihash_rule::{Openings, View};
use std::marker::{Brand, PhantomData};

/// With what a row begins: the view of a mark. `None`: with nothing.
pub(crate) type Began = Option<Mark<Openings>>;

/// What a mark is to say.
pub(crate) trait Beginning {
    ghost openings: { Openings };
}

impl Beginning for Brand {
    ghost openings = { no_openings };
}

// The rule of a perch on which nobody rests.
struct Begins<E> {
    of: PhantomData<E>,
}

impl<E: Beginning> PerchRule<Openings> for Begins<E> {
    ghost holds = { λ _ _. Unit {0} };

    ghost first = { E.openings };
}

/// A mark that says with what a row begins, as `E` names it. The seat names its types, and nothing else is asked of it.
pub(crate) fn mark<E: Beginning>(like: &Seat<(), View>) -> Mark<Openings>
    ensures { result.view ≡ E.openings }
{
    let (_, mark) = RuledPerch::<(), View, Openings, Begins<E>>::new(like, 0);
    mark
}
