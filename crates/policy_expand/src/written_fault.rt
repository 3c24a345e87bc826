//! Why a written line is wrong, before a plain line is made of it.
ghost use Rattle.std.specs.Prelude.{◌≡◌};

use crate::file_lines::SourceLine;
use std::alloc::{AllocError, AllocFailed};
use thiserror::Error;

/// What is the matter with a written line. It is said of a word of it; `Missing`, `NoFamily`,
/// `TooMany` and those of included files but `SecondFile` are said of none.
#[derive(Clone, Copy, Debug, PartialEq, Eq, Error)]
pub enum WrittenReason {
    #[error("has a byte that is no visible ASCII")]
    Unseen,
    #[error("names no set of a line before: set NAME WORD ..")]
    NoSet,
    #[error("names a set that is there already")]
    SecondSet,
    #[error("is no name of a set: it has a comma or @")]
    NoName,
    #[error("has a comma without a word on one side")]
    EmptyPiece,
    #[error("ends too early")]
    Missing,
    #[error("stands for no rule: no family has an address of each side")]
    NoFamily,
    #[error("means another message in each family: write a rule for ipv4 and one for ipv6")]
    IcmpOfBoth,
    #[error("stands for more than 4096 rules of a family")]
    TooMany,
    #[error("stands behind the name of a file: include NAME")]
    SecondFile,
    #[error("includes a file that is not UTF-8")]
    NotUtf8,
    #[error("includes a file more than 16 deep, as one that includes itself does")]
    TooDeep,
    #[error("includes a file too many: a policy has at most 256")]
    TooManyFiles,
    #[error("includes a line too many: a policy has at most 1048576")]
    TooManyLines,
}

/// Why no plain lines are made of a written one.
#[derive(Clone, Copy)]
pub enum LineFault<'a> {
    Memory,
    /// The reason, and the word of which it is said: of none where that is empty.
    Wrong(WrittenReason, &'a [u8]),
}

/// A line, and what is the matter with it.
#[derive(Clone, Copy)]
pub struct WrongLine<'a> {
    pub line: SourceLine<'a>,
    pub fault: LineFault<'a>,
}

/// A written line is wrong for this reason, which is said of this word.
pub fn wrong(reason: WrittenReason, word: &[u8]) -> LineFault<'_>
    ensures { result ≡ LineFault.Wrong reason word.entry }
{
    LineFault::Wrong(reason, word)
}

impl<'a, T: Drop> From<AllocFailed<T>> for LineFault<'a> {
    ghost use Rattle.policy_expand.specs.declared.written_fault.LineFault.TheVariants.{Memory};
    ghost use Rattle.std.specs.Prelude.{◌≡◌};

    ghost from_gives = { λ _ fault. fault ≡ Memory };

    fn from(_failed: AllocFailed<T>) -> LineFault<'a> {
        LineFault::Memory
    }
}

impl<'a> From<AllocError> for LineFault<'a> {
    ghost use Rattle.policy_expand.specs.declared.written_fault.LineFault.TheVariants.{Memory};
    ghost use Rattle.std.specs.Prelude.{◌≡◌};

    ghost from_gives = { λ _ fault. fault ≡ Memory };

    fn from(_failed: AllocError) -> LineFault<'a> {
        LineFault::Memory
    }
}
