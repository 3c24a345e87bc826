//! Words of rows that have numbers: where rows in turn have the same bits for 64 rules, they have one word.
ghost use Rattle.std.specs.Prelude.{◌≡◌, ◌≢◌, ◌≤◌, ◌<◌, ◌*◌, ◌+◌, ◌-◌, ℕ, IfOk, length, slice_index};
ghost use Rattle.rule_index.specs.Numbered.{AreOf, AreWords, IsCarried, IsStored, KeepsOthers, Laid};

use std::alloc::{AllocError, Global};

/// The number of a word with no bit.
const NONE: u16 = 1;
/// The number of a word with each bit.
const EVERY: u16 = 2;

/// The words that stand before all others: that of number 0, which is given to what isn't laid, and those of `NONE` and `EVERY`.
pub fn first_words(alloc: Global) -> Result<Vec<u64>, AllocError>
    ensures { IfOk result (λ words. AreWords words.items) }
{
    Vec::from_slice(alloc, &[0, 0, u64::MAX])
}

/// Stores a word, and says its number. Where words have no further number, it is that of a word with each bit, which
/// leaves no rule out.
fn store(words: &mut Vec<u64>, word: u64) -> Result<u16, AllocError>
    requires { AreWords words.now.items }
    ensures { IfOk result (λ number. IsStored words.old.items words.new.items word number) }
{
    if word == 0 {
        return Ok(NONE);
    }
    let Ok(number) = u16::try_from(words.len()) else {
        return Ok(EVERY);
    };
    words.push(word)?;
    Ok(number)
}

/// Lays the words of 64 rules, one for each row: a row whose word isn't that of the row before has its number.
pub fn lay(
    numbers: &mut [u16],
    words: &mut Vec<u64>,
    width: usize,
    block: usize,
    rows: &[u64],
) -> Result<(), AllocError>
    requires sized { length numbers.now ≡ length rows.now * width }
    requires block { block < width }
    requires clear { (row : ℕ) → row < length rows.now → slice_index numbers.now (row * width + block) ≡ 0 }
    requires words { AreWords words.now.items }
    requires within { AreOf numbers.now words.now.items }
    ensures len { length numbers.new ≡ length numbers.old }
    ensures laid { IfOk result (λ _. Laid (length rows.now) width block rows.now numbers.new words.new.items) }
    ensures others { IfOk result (λ _. KeepsOthers width block numbers.old words.old.items numbers.new words.new.items) }
{
    let mut last = 0;
    for row in 0..rows.len() {
        if rows[row] == last {
            continue;
        }
        last = rows[row];
        let number = store(words, last)?;
        numbers[row * width + block] = number;
    }
    Ok(())
}

/// Gives each word that isn't laid the number of the word before it.
pub fn carry(numbers: &mut [u16], width: usize)
    requires { 0 < width }
    ensures { IsCarried width numbers.old numbers.new }
{
    for i in width..numbers.len() {
        if numbers[i] == 0 {
            numbers[i] = numbers[i - width];
        }
    }
}
