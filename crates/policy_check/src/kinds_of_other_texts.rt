//! What texts are likely to be that are no policies.
ghost use Rattle.std.specs.Prelude.{◌≡◌, ℕ, IfSome, IsTrue, None, false, take};
ghost use Rattle.policy_check.specs.TextKinds.{BeginsAsUtf16, IsMarkedAt, IsOfKind};

use crate::lines_for_expand::line_for_expand;
use crate::policy_checking::line_in_checked_policy;
use racl_io::{is_capture, split_input};
use thiserror::Error;

/// What such a text is. Its own text says so, and what to do.
#[derive(Clone, Copy, Debug, PartialEq, Eq, Error)]
pub enum TextKind {
    #[error("the file is a capture; racl check takes a policy")]
    Capture,
    #[error("the file is UTF-16; a policy that is read is made by: iconv -f UTF-16 -t UTF-8 IN > OUT")]
    Utf16,
    /// The line with this number is the first marker line.
    #[error("the file is an input with its capture behind line {0}; the policy is what stands before that line")]
    Input(u64),
    /// The line with this number is the first of a form that `racl expand` takes and no policy has.
    #[error("line {0} is of a form that racl expand takes; a policy that is read is made by: racl expand IN > OUT")]
    ForExpand(u64),
}

// Whether a text that may be no policy begins with this byte order mark.
fn begins_with_mark(text: &[u8], mark: [u8; 2]) -> bool
    ensures yes { IsTrue result → take 2 text.now ≡ mark }
    ensures no { result ≡ false → take 2 text.now ≡ mark → ⊥ }
{
    text.len() >= 2 && text[..2] == mark[..]
}

// Whether a text that may be no policy begins as one in UTF-16.
fn begins_as_utf16(text: &[u8]) -> bool
    ensures yes { IsTrue result → BeginsAsUtf16 text.now }
    ensures no { result ≡ false → BeginsAsUtf16 text.now → ⊥ }
{
    begins_with_mark(text, [255, 254]) || begins_with_mark(text, [254, 255])
}

// The number of the first marker line in a text that may be no policy.
fn marked_line(text: &[u8]) -> Option<u64>
    ensures some { IfSome result (IsMarkedAt text.now) }
    ensures none { result ≡ None → (number : ℕ) → IsMarkedAt text.now number → ⊥ }
{
    match split_input(text) {
        Some(input) => Some(line_in_checked_policy(input.policy)),
        None => None,
    }
}

/// What a text is likely to be that is no policy; None where nothing is known of it.
pub fn kind_of_other(text: &[u8]) -> Option<TextKind>
    ensures holds { IfSome result (IsOfKind text.now) }
    ensures none { result ≡ None → (kind : TextKind) → IsOfKind text.now kind → ⊥ }
{
    if is_capture(text) {
        return Some(TextKind::Capture);
    }
    if begins_as_utf16(text) {
        return Some(TextKind::Utf16);
    }
    match (marked_line(text), line_for_expand(text)) {
        (Some(number), _) => Some(TextKind::Input(number)),
        (None, Some(number)) => Some(TextKind::ForExpand(number)),
        (None, None) => None,
    }
}
