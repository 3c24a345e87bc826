//! Bits for ranges of numbers: which of some ranges may hold a number.
ghost use Rattle.std.specs.Prelude.{◌≡◌, ◌*◌, length};
ghost use Rattle.rule_index.specs.Numbered.{AreOf};
ghost use Rattle.rule_index.specs.Rows.{AreStarts};

mod block_rows;
mod building_and_reading;
mod interval_rows;
mod interval_starts;

/// For some ranges, which of them may hold a number: a row of bits for each interval of numbers.
#[derive(Drop)]
pub struct Column {
    /// The words of a row.
    width: usize,
    /// The first number of each interval.
    starts: Vec<u128>,
    /// For each row the numbers of its words.
    numbers: Vec<u16>,
    words: Vec<u64>,
    pub ghost ordered: { AreStarts starts.items },
    pub ghost sized: { length numbers.items ≡ length starts.items * width },
    pub ghost within: { AreOf numbers.items words.items },
}
