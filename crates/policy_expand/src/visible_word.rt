//! Words that are seen: visible ASCII, in which no comment begins.
ghost use Rattle.std.specs.Prelude.{IsTrue};
ghost use Rattle.policy_expand.specs.Visible.{is_visible_word};

/// A word of a written line.
#[derive(Clone, Copy)]
pub struct Word<'a> {
    pub bytes: &'a [u8],
    ghost visible: { IsTrue (is_visible_word bytes.now) },
}

/// Words in their order: those that a word of a line stands for, or those of a line.
#[derive(Drop)]
pub struct WordList<'a> {
    pub words: Vec<Word<'a>>,
}
