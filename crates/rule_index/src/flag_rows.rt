//! For each value of the flags of TCP, the rules that may match it.
ghost use Rattle.std.specs.Prelude.{◌≡◌, ◌*◌, length};

mod building_and_reading;

/// A row of bits for each value of the flags.
#[derive(Drop)]
pub struct FlagRows {
    /// The words of a row.
    width: usize,
    rows: Vec<u64>,
    pub ghost sized: { length rows.items ≡ 256 * width },
}
