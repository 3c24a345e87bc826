//! A key, and a pair of a table that was closed, for C.
ghost use Rattle.std.specs.Prelude.{◌≡◌, take};
ghost use Rattle.bihash_c.specs.Pairs.{IsGiven};
ghost use Rattle.bihash_c.specs.Pairs as pairs;

/// The words of a key. A table whose keys have two words sees the first two alone.
#[repr(C)]
#[derive(Clone, Copy)]
pub struct Key {
    pub words: [u64; 5],
}

impl Key {
    /// The words that a table sees whose keys have two.
    #[inline(always)]
    pub fn two(&self) -> &[u64; 2]
        ensures { result.now ≡ take 2 self.now.words }
    {
        let Some((two, _)) = self.words.split_first_chunk() else {
            unreachable!();
        };
        two
    }
}

/// A key, and its value.
#[repr(C)]
#[derive(Clone, Copy)]
pub struct Pair {
    pub key: Key,
    pub value: u64,
}

impl Pair {
    /// Becomes the pair that was found, and tells whether there was one.
    pub(crate) fn give(&mut self, found: Option<Pair>) -> bool
        ensures { IsGiven found self.old self.new result }
    {
        let Some(pair) = found else {
            return false;
        };
        *self = pair;
        true
    }
}

/// A pair that was found whose key has two words. The others of the key are 0.
pub fn of_two(found: Option<([u64; 2], u64)>) -> Option<Pair>
    ensures { result ≡ pairs.of_two found }
{
    let (words, value) = found?;
    let words = [words[0], words[1], 0, 0, 0];
    Some(Pair {
        key: Key { words },
        value,
    })
}

/// A pair that was found whose key has five words.
pub fn of_five(found: Option<([u64; 5], u64)>) -> Option<Pair>
    ensures { result ≡ pairs.of_five found }
{
    let (words, value) = found?;
    Some(Pair {
        key: Key { words },
        value,
    })
}
