//! Rows of words, one of each list, the words of the first lists changing last.
ghost use Rattle.std.specs.Prelude.{◌≡◌, ◌++◌, ◌∷◌, [], OnOk, IfOk, map, fold};
ghost use Rattle.policy_expand.specs.Written.{list_words};
ghost use Rattle.policy_expand.specs.Rows.{grown};

use crate::visible_word::{Word, WordList};
use crate::written_fault::{LineFault, WrittenReason, wrong};
use std::alloc::{AllocError, Global};

/// The greatest number of rules of one direction, and so of one written rule and family.
const MOST_ROWS: usize = 4096;

// These words and one more.
fn longer_row<'a>(
    alloc: Global,
    row: &[Word<'a>],
    word: Word<'a>,
) -> Result<WordList<'a>, AllocError>
    ensures { IfOk result (λ list. list_words list ≡ row.now ++ word.entry ∷ []) }
{
    let mut words = Vec::with_capacity(alloc, row.len().saturating_add(1))?;
    words.extend_from_slice(row)?;
    words.push(word)?;
    Ok(WordList { words })
}

// Adds a row with each word of a list behind it.
fn push_rows<'a>(
    alloc: Global,
    row: &[Word<'a>],
    list: &[Word<'a>],
    out: &mut Vec<WordList<'a>>,
) -> Result<(), AllocError>
    ensures { OnOk result (map list_words out.new.items
        ≡ map list_words out.old.items ++ map (λ word. row.now ++ word ∷ []) list.now) }
{
    for word in list {
        out.push(longer_row(alloc, row, *word)?)?;
    }
    Ok(())
}

// Each of these rows with each word of a list behind it.
fn grown_rows<'a>(
    alloc: Global,
    rows: &[WordList<'a>],
    list: &[Word<'a>],
) -> Result<Vec<WordList<'a>>, AllocError>
    ensures { IfOk result (λ out. map list_words out.items ≡ grown (map list_words rows.now) list.now) }
{
    let mut out = Vec::new(alloc);
    for row in rows {
        push_rows(alloc, row.words.as_slice(), list, &mut out)?;
    }
    Ok(out)
}

/// Each of these rows with each word of a list behind it, where they are few enough.
pub fn next_rows<'a>(
    alloc: Global,
    rows: &[WordList<'a>],
    list: &[Word<'a>],
) -> Result<Vec<WordList<'a>>, LineFault<'a>>
    ensures { IfOk result (λ out. map list_words out.items ≡ grown (map list_words rows.now) list.now) }
{
    if rows.len().saturating_mul(list.len()) > MOST_ROWS {
        return Err(wrong(WrittenReason::TooMany, b""));
    }
    Ok(grown_rows(alloc, rows, list)?)
}

/// Each of these rows with a word of each list behind it, in the lists' order.
pub fn chosen_rows<'a>(
    alloc: Global,
    rows: Vec<WordList<'a>>,
    lists: &[WordList<'a>],
) -> Result<Vec<WordList<'a>>, LineFault<'a>>
    ensures { IfOk result (λ out. map list_words out.items
        ≡ fold grown (map list_words rows.entry.items) (map list_words lists.now)) }
{
    let mut rows = rows;
    for list in lists {
        rows = next_rows(alloc, rows.as_slice(), list.words.as_slice())?;
    }
    Ok(rows)
}
