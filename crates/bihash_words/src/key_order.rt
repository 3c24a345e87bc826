//! How two keys of a shape stand by their words: whether they are the same, and which comes first.
ghost use Rattle.std.specs.Prelude.{◌≡◌, ◌↔◌, ◌≤◌, IsTrue};
ghost use Rattle.std.specs.Ordering.{nat_cmp};
ghost use Rattle.std.specs.Cmp.Lexicographic.{slice_cmp};

use crate::shape::Shape;
use std::cmp::Ordering;

/// Whether two keys of a shape have the same words, and so are the same.
pub fn is_same<S: Shape>(a: &S::Key, b: &S::Key) -> bool
    requires { 1 ≤ S.WORDS }
    ensures { IsTrue result ↔ (S.words_of a.now ≡ S.words_of b.now) }
{
    for i in 0..S::WORDS {
        if S::word(a, i) != S::word(b, i) {
            return false;
        }
    }
    true
}

/// How two keys of a shape stand by their words, first word first.
pub fn compare<S: Shape>(a: &S::Key, b: &S::Key) -> Ordering
    ensures { 1 ≤ S.WORDS → result ≡ slice_cmp nat_cmp (S.words_of a.now) (S.words_of b.now) }
{
    for i in 0..S::WORDS {
        let order = S::word(a, i).cmp(&S::word(b, i));
        if order != Ordering::Equal {
            return order;
        }
    }
    Ordering::Equal
}
