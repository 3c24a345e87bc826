//! Rows of bits, one bit for each rule, in one list of words.
ghost use Rattle.std.specs.Prelude.{◌≡◌, ◌≢◌, ◌<◌, ◌≤◌, ◌*◌, ◌+◌, ◌-◌, ◌/◌, ◌⊎◌, ℕ, length, slice_index, bit_xor};
ghost use Rattle.rule_index.specs.Rows.{bit_in, row_words};

/// How many words a row of bits for this many rules has.
pub fn words_for(rules: usize) -> usize
    ensures { result ≡ row_words rules }
{
    rules / 64 + 1
}

/// Sets the bit of a rule in a row.
pub fn set_bit(rows: &mut [u64], width: usize, row: usize, rule: usize)
    requires within { row * width + rule / 64 < length rows.now }
    requires rule { rule / 64 < width }
    ensures len { length rows.new ≡ length rows.old }
    ensures set { bit_in width rows.new row rule ≡ 1 }
    ensures others { (r k : ℕ) → k / 64 < width → (r ≢ row) ⊎ (k ≢ rule) → bit_in width rows.new r k ≡ bit_in width rows.old r k }
{
    let word = row * width + rule / 64;
    rows[word] = rows[word] | 1u64 << (rule % 64);
}

/// Gives each row the bits that an odd number of the rows up to it have.
pub fn accumulate(rows: &mut [u64], width: usize)
    requires width { 0 < width }
    ensures len { length rows.new ≡ length rows.old }
    ensures first { (i : ℕ) → i < width → slice_index rows.new i ≡ slice_index rows.old i }
    ensures rest { (i : ℕ) → width ≤ i → i < length rows.new
        → slice_index rows.new i ≡ bit_xor (slice_index rows.old i) (slice_index rows.new (i - width)) }
{
    for i in width..rows.len() {
        rows[i] = rows[i] ^ rows[i - width];
    }
}
