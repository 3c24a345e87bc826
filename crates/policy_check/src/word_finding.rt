//! What is the matter with a word of a line.
ghost use Rattle.std.specs.Prelude.{◌≡◌, []};
ghost use Rattle.policy_check.specs.declared.reason.Reason.TheVariants.{Missing};

use crate::reason::Reason;

#[derive(Clone, Copy)]
pub struct Finding<'a> {
    pub reason: Reason,
    /// The word, and nothing where the line ends too early.
    pub word: &'a [u8],
}

pub fn of(reason: Reason, word: &[u8]) -> Finding<'_>
    ensures reason { result.reason ≡ reason }
    ensures word { result.word.now ≡ word.now }
{
    Finding { reason, word }
}

/// The line ends too early.
pub fn missing<'a>() -> Finding<'a>
    ensures reason { result.reason ≡ Missing }
    ensures word { result.word.now ≡ [] }
{
    Finding {
        reason: Reason::Missing,
        word: b"",
    }
}
