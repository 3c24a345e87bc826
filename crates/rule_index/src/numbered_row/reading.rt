//! A row's words.
ghost use Rattle.std.specs.Prelude.{◌≡◌, ◌<◌, length, slice_index};
ghost use Rattle.rule_index.specs.inner.NumberedRows.{words_of};

use super::Row;

impl Row<'_> {
    /// The word of 64 rules.
    pub fn word(&self, i: usize) -> u64
        requires { i < length self.now.numbers.now }
        ensures { result ≡ slice_index (words_of self.now) i }
    {
        self.words[usize::from(self.numbers[i])]
    }
}
