//! What C asks for when a table is made, or a bucket is asked for.
ghost use Rattle.std.specs.Prelude.{◌↔◌, ◌≡◌, IsTrue};
ghost use Rattle.bihash_c.specs.Options.{AskNothing, KindTold};

/// A table of the usual size.
pub const STANDARD: u32 = 0;

/// A large table.
pub const LARGE: u32 = 1;

/// Which kind of table is meant.
#[repr(C)]
#[derive(Clone, Copy)]
pub struct Options {
    /// How many bytes this has.
    pub size: u32,
    /// How many words a key has, 2 or 5.
    pub words: u32,
    /// Its size, STANDARD or LARGE.
    pub tables: u32,
}

/// How many words the keys of a table have, and its size.
#[derive(Clone, Copy, Debug, PartialEq, Eq)]
pub enum Kind {
    /// Keys of two words.
    Two,
    /// Keys of two words, in a large table.
    LargeTwo,
    /// Keys of five words.
    Five,
    /// Keys of five words, in a large table.
    LargeFive,
}

// Whether the bytes behind those that are known ask for nothing.
fn ask_nothing(rest: &[u8]) -> bool
    ensures { IsTrue result ↔ AskNothing rest.now }
{
    rest.iter().all(|byte| *byte == 0)
}

/// The kind of table that is meant, where these are the bytes behind those that are known. `None`: another size, another number of
/// words or other tables, or something unknown.
pub fn kind_of(options: &Options, rest: &[u8]) -> Option<Kind>
    ensures { KindTold options.now rest.now result }
{
    if options.size as usize != rest.len().saturating_add(12) || !ask_nothing(rest) {
        return None;
    }
    if options.tables != STANDARD && options.tables != LARGE {
        return None;
    }
    let is_large = options.tables == LARGE;
    if options.words == 2 {
        return Some(if is_large { Kind::LargeTwo } else { Kind::Two });
    }
    if options.words == 5 {
        return Some(if is_large {
            Kind::LargeFive
        } else {
            Kind::Five
        });
    }
    None
}
