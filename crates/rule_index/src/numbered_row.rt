//! A row of bits whose words have numbers.
ghost use Rattle.std.specs.Prelude.{length};
ghost use Rattle.rule_index.specs.Numbered.{AreOf};

mod reading;

/// A row of bits, one bit for each rule: the numbers of its words.
#[derive(Clone, Copy)]
pub struct Row<'a> {
    pub numbers: &'a [u16],
    pub words: &'a [u64],
    pub ghost within: { AreOf numbers.now words.now },
}
