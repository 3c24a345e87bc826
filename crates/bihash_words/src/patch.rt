//! What an update decides on a stored value, what it answers, and the four fixed decisions.
ghost use Rattle.std.specs.Prelude.{◌≡◌, ◌<◌, ℕ, Option};
ghost use Rattle.bihash_words.specs.declared.patch.Change.{Change};
ghost use Rattle.bihash_words.specs.declared.patch.Change.TheVariants.{Set, Remove};
ghost use Rattle.bihash_words.specs.Patches.{IsStorable, free_mark, set_if_absent, set_if_present};

/// The value of a free place, all ones. No decision sets it.
pub const FREE: u64 = u64::MAX;

/// What becomes of a key's value.
#[derive(Clone, Copy, Debug, PartialEq, Eq)]
pub enum Change {
    Keep,
    Set(u64),
    Remove,
}

/// What an update answers. The value is the one that was found, `None` where the key was absent.
#[derive(Clone, Copy, Debug, PartialEq, Eq)]
pub enum Reply {
    /// Nothing was to be changed.
    Kept(Option<u64>),
    /// The change was made.
    Changed(Option<u64>),
    /// The bucket's version is used up: a change was wanted, and none was made.
    Worn(Option<u64>),
    /// The bucket has no room for a new key.
    Full,
    /// A block of `2 ^ log2` pages was wanted and is not there: `left` pages were never used.
    NoPages { log2: u64, left: u64 },
}

/// A decision on a key's value, made once for each try of an update.
pub trait Patch {
    /// What is decided at a value, or where there is none.
    ghost decision: { Self → Option ℕ → Change };

    /// What becomes of the value `old`.
    fn decide(&self, old: Option<u64>) -> Change
        ensures decision { result ≡ decision self.now old }
        // All ones mark a free place, so no decision sets them.
        ensures storable { IsStorable result };
}

/// Sets the value, whatever was found.
#[derive(Clone, Copy)]
pub struct Add {
    pub value: u64,
    pub ghost storable: { value < free_mark },
}

impl Patch for Add {
    ghost decision = { λ patch old. Set patch.value };

    /// The patch sets the value.
    fn decide(&self, _old: Option<u64>) -> Change {
        Change::Set(self.value)
    }
}

/// Sets the value where there is none, and keeps one that is there.
#[derive(Clone, Copy)]
pub struct AddIfAbsent {
    pub value: u64,
    pub ghost storable: { value < free_mark },
}

impl Patch for AddIfAbsent {
    ghost decision = { λ patch old. set_if_absent patch.value old };

    /// The patch sets the value where there is none.
    fn decide(&self, old: Option<u64>) -> Change {
        match old {
            None => Change::Set(self.value),
            Some(_) => Change::Keep,
        }
    }
}

/// Removes the value.
#[derive(Clone, Copy)]
pub struct Delete;

impl Patch for Delete {
    ghost decision = { λ patch old. Remove };

    /// The patch removes the value.
    fn decide(&self, _old: Option<u64>) -> Change {
        Change::Remove
    }
}

/// Sets the value where there is one.
#[derive(Clone, Copy)]
pub struct Touch {
    pub value: u64,
    pub ghost storable: { value < free_mark },
}

impl Patch for Touch {
    ghost decision = { λ patch old. set_if_present patch.value old };

    /// The patch sets the value where there is one.
    fn decide(&self, old: Option<u64>) -> Change {
        match old {
            Some(_) => Change::Set(self.value),
            None => Change::Keep,
        }
    }
}
