//! What C is told: one number for each answer, with all that the answer carries.
ghost use Rattle.std.specs.Prelude.{◌≡◌};
ghost use Rattle.bihash_c.specs.Answers.{answer_of, end_number, expire_answer_of, search_answer_of, split_number, stamp_told, value_told};

use crate::end_of_table::EndFault;
use bihash_table::{Contended, SplitFault};
use bihash_words::Reply;

/// Of a call on callers: it was done.
pub const DONE: u32 = 0;

/// Kept, and the key was absent.
pub const ABSENT: u32 = 0;

/// Kept, and `value` was found.
pub const FOUND: u32 = 1;

/// Changed, and the key was absent.
pub const ADDED: u32 = 2;

/// Changed, and `value` was found.
pub const REPLACED: u32 = 3;

/// The bucket's changes are used up, and the key was absent.
pub const WORN: u32 = 4;

/// The bucket's changes are used up, and `value` was found.
pub const WORN_FOUND: u32 = 5;

/// The bucket has no room for a new key.
pub const FULL: u32 = 6;

/// A block of `2 ^ log2` pages was wanted and is not there: `value` pages were never used.
pub const NO_PAGES: u32 = 7;

/// Another caller stood in the way.
pub const CONTENDED: u32 = 8;

/// Memory was refused.
pub const MEMORY: u32 = 9;

/// As many callers were made as a table may have.
pub const NUMBERS: u32 = 10;

/// Some caller was not joined.
pub const STRANGERS: u32 = 11;

/// A table of no kind was asked for.
pub const BAD_OPTIONS: u32 = 12;

/// The answer of a call on a key.
#[repr(C)]
#[derive(Clone, Copy, Debug, PartialEq, Eq)]
pub struct Answer {
    pub kind: u32,
    pub value: u64,
    pub log2: u64,
}

/// The bucket and the stamp of a call. `known` is 0 before the first.
#[repr(C)]
#[derive(Clone, Copy)]
pub struct Stamp {
    pub known: u32,
    pub bucket: u64,
    pub stamp: u64,
}

// An answer for C of this number, without a value.
fn bare(kind: u32) -> Answer
    ensures { result ≡ record { kind = kind; value = 0; log2 = 0 } }
{
    Answer {
        kind,
        value: 0,
        log2: 0,
    }
}

// The answer for C by what was found: the number `none` where the key was absent, else `some` with the value.
fn found_answer(found: Option<u64>, none: u32, some: u32) -> Answer
    ensures { result ≡ value_told found none some }
{
    match found {
        None => bare(none),
        Some(value) => Answer {
            kind: some,
            value,
            log2: 0,
        },
    }
}

/// What C is told of a try of an update: the number of its reply, with what that carries.
#[inline(always)]
pub fn reply_answer(tried: Result<Reply, Contended>) -> Answer
    ensures { result ≡ answer_of tried }
{
    match tried {
        Ok(Reply::Kept(found)) => found_answer(found, ABSENT, FOUND),
        Ok(Reply::Changed(found)) => found_answer(found, ADDED, REPLACED),
        Ok(Reply::Worn(found)) => found_answer(found, WORN, WORN_FOUND),
        Ok(Reply::Full) => bare(FULL),
        Ok(Reply::NoPages { log2, left }) => Answer {
            kind: NO_PAGES,
            value: left,
            log2,
        },
        Err(Contended) => bare(CONTENDED),
    }
}

/// What C is told of a try of a search: a number, with the value that was found.
#[inline(always)]
pub fn search_answer(tried: Result<Option<u64>, Contended>) -> Answer
    ensures { result ≡ search_answer_of tried }
{
    match tried {
        Ok(found) => found_answer(found, ABSENT, FOUND),
        Err(Contended) => bare(CONTENDED),
    }
}

/// What C is told of a look for an expired pair: that there is none, or what its removal came to.
#[inline(always)]
pub fn expire_answer(tried: Result<Option<Reply>, Contended>) -> Answer
    ensures { result ≡ expire_answer_of tried }
{
    match tried {
        Ok(None) => bare(ABSENT),
        Ok(Some(reply)) => reply_answer(Ok(reply)),
        Err(Contended) => bare(CONTENDED),
    }
}

/// The number for a split that was refused.
pub fn split_refusal(fault: SplitFault) -> u32
    ensures { result ≡ split_number fault }
{
    match fault {
        SplitFault::Memory => MEMORY,
        SplitFault::Numbers => NUMBERS,
        SplitFault::Contended => CONTENDED,
    }
}

/// The number for a close or a renewal that was refused.
pub fn end_refusal(fault: EndFault) -> u32
    ensures { result ≡ end_number fault }
{
    match fault {
        EndFault::Strangers => STRANGERS,
        EndFault::Contended => CONTENDED,
        EndFault::Memory => MEMORY,
    }
}

/// The bucket and the stamp, for C.
pub fn stamp_answer(stamp: Option<(u64, u64)>) -> Stamp
    ensures { result ≡ stamp_told stamp }
{
    match stamp {
        None => Stamp {
            known: 0,
            bucket: 0,
            stamp: 0,
        },
        Some((bucket, stamp)) => Stamp {
            known: 1,
            bucket,
            stamp,
        },
    }
}
