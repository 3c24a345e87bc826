//! The text of plain lines, each with the place at which it was written.
ghost use Rattle.std.specs.Prelude.{◌≡◌, ◌++◌, IfOk, OnOk, drop, length, map};
ghost use Rattle.acl_policy.specs.Words.{without_comment};
ghost use Rattle.policy_expand.specs.Sources.{source_facts};
ghost use Rattle.policy_expand.specs.Texts;
ghost use Rattle.policy_expand.specs.Texts.{ended, own_comment, place_mark, plain_text, spelt};
ghost use Rattle.policy_expand.specs.Written.{list_words};

use crate::file_lines::SourceLine;
use crate::visible_word::{Word, WordList};
use acl_policy::before_comment;
use std::alloc::{AllocError, Global};

// A byte of a place's mark: any that isn't printable is shown as `?`.
fn shown(byte: u8) -> u8
    ensures { result ≡ Texts.shown byte }
{
    if byte >= 32 && byte < 127 { byte } else { b'?' }
}

// Bytes as they are shown.
fn shown_bytes(alloc: Global, bytes: &[u8]) -> Result<Vec<u8>, AllocError>
    ensures { IfOk result (λ out. out.items ≡ map Texts.shown bytes.now) }
{
    let mut out = Vec::new(alloc);
    for byte in bytes {
        out.push(shown(*byte))?;
    }
    Ok(out)
}

// What stands behind the words of a line: its comment with its `#`, or nothing.
#[tactic(auto, using(crate::proofs::MarkLemmas::words_short))]
fn comment_of(line: &[u8]) -> &[u8]
    ensures { result.now ≡ drop (length (without_comment line.now)) line.now }
{
    &line[before_comment(line).len()..]
}

// Adds a line's own comment with its `#` to a mark, behind a space.
fn push_own_comment(out: &mut Vec<u8>, line: &[u8]) -> Result<(), AllocError>
    ensures { OnOk result (out.new.items ≡ out.old.items ++ own_comment line.now) }
{
    let comment = comment_of(line);
    if comment.is_empty() {
        return Ok(());
    }
    out.push(b' ')?;
    out.extend_from_slice(comment)?;
    Ok(())
}

/// The mark of a line's place: its file and number, and behind them its own comment.
pub fn mark_of(alloc: Global, line: &SourceLine<'_>) -> Result<Vec<u8>, AllocError>
    ensures { IfOk result (λ mark. mark.items ≡ place_mark (source_facts line.now)) }
{
    let place = format!(in alloc; " {}:{}", line.file, line.number)?;
    let mut mark = Vec::from_slice(alloc, place.as_bytes())?;
    push_own_comment(&mut mark, line.text)?;
    shown_bytes(alloc, mark.as_slice())
}

// Adds words to a text, each with a space behind it.
fn push_words(out: &mut Vec<u8>, row: &[Word<'_>]) -> Result<(), AllocError>
    ensures { OnOk result (out.new.items ≡ out.old.items ++ spelt row.now) }
{
    for word in row {
        out.extend_from_slice(word.bytes)?;
        out.push(b' ')?;
    }
    Ok(())
}

// Adds a plain line to a text.
fn push_plain_line(out: &mut Vec<u8>, row: &[Word<'_>], mark: &[u8]) -> Result<(), AllocError>
    ensures { OnOk result (out.new.items ≡ out.old.items ++ ended row.now mark.now) }
{
    push_words(out, row)?;
    out.push(b'#')?;
    out.extend_from_slice(mark)?;
    out.push(b'\n')?;
    Ok(())
}

/// Adds plain lines to a text.
pub fn push_plain_lines(
    out: &mut Vec<u8>,
    rows: &[WordList<'_>],
    mark: &[u8],
) -> Result<(), AllocError>
    ensures { OnOk result (out.new.items ≡ out.old.items ++ plain_text mark.now (map list_words rows.now)) }
{
    for row in rows {
        push_plain_line(out, row.words.as_slice(), mark)?;
    }
    Ok(())
}
