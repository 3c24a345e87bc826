//! The update that sets a value only where the one that was found before still is.
ghost use Rattle.std.specs.Prelude.{◌<◌};
ghost use Rattle.bihash_words.specs.Patches.{free_mark};
ghost use Rattle.bihash_c.specs.Replacements.{set_if_is};

use bihash_words::{Change, Patch};

/// Sets the value where `was` is, and keeps another one, or none.
#[derive(Clone, Copy)]
pub struct ReplaceIf {
    pub was: u64,
    pub value: u64,
    pub ghost storable: { value < free_mark },
}

impl Patch for ReplaceIf {
    ghost decision = { λ patch old. set_if_is patch.was patch.value old };

    /// The patch sets the value where the other one still is.
    fn decide(&self, old: Option<u64>) -> Change {
        let Some(found) = old else {
            return Change::Keep;
        };
        if found == self.was {
            Change::Set(self.value)
        } else {
            Change::Keep
        }
    }
}
