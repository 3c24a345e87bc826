//! What the words of a line stand for: lists, and names of sets.
ghost use Rattle.std.specs.Prelude.{◌≡◌, ◌++◌, ◌∷◌, ℕ, List, None, OnOk, IfSome, option_map};
ghost use Rattle.policy_expand.specs.Lists.{AreStoodFor, IsStoodFor, find_set};
ghost use Rattle.policy_expand.specs.Written.{word_text};
ghost use Rattle.policy_expand.specs.declared.visible_word.Word.{Word};
ghost use Rattle.std.specs.List.{slice_split};
ghost use Rattle.policy_expand.specs.Lists.{is_comma};

use crate::visible_word::{Word, WordList};
use crate::word_reading::visible_word;
use crate::written_fault::{LineFault, WrittenReason, wrong};

/// A set, by its name.
#[derive(Drop)]
pub struct NamedSet<'a> {
    pub name: Word<'a>,
    pub list: WordList<'a>,
}

/// The words of the set with this name.
pub fn set_named<'a, 'b>(sets: &'b [NamedSet<'a>], name: &[u8]) -> Option<&'b WordList<'a>>
    ensures { option_map (λ list. list.now.words.items) result ≡ find_set name.now sets.now }
{
    let mut rest = sets;
    'sets: while !rest.is_empty() {
        if rest[0].name.bytes == name {
            return Some(&rest[0].list);
        }
        rest = &rest[1..];
    }
    None
}

// The name of a set that a piece of a list has behind `@`, where it begins so.
fn named_in(piece: &[u8]) -> Option<&[u8]>
    ensures some { IfSome result (λ name. piece.now ≡ 64 ∷ name.now) }
    ensures none { result ≡ None → (name : List ℕ) → piece.now ≡ 64 ∷ name → ⊥ }
{
    let [first, name @ ..] = piece else {
        return None;
    };
    if *first != b'@' {
        return None;
    }
    Some(name)
}

// Adds the words that a piece of a list, which is this whole, stands for: those of a set, or itself.
fn push_piece<'a>(
    sets: &[NamedSet<'a>],
    whole: Word<'a>,
    piece: &'a [u8],
    out: &mut Vec<Word<'a>>,
) -> Result<(), LineFault<'a>>
    ensures { OnOk result ((words : List Word) × (out.new.items ≡ out.old.items ++ words) × IsStoodFor sets.now piece.now words) }
{
    match named_in(piece) {
        None => {
            let Some(word) = visible_word(piece) else {
                return Err(wrong(WrittenReason::EmptyPiece, whole.bytes));
            };
            out.push(word)?;
            Ok(())
        }
        Some(name) => {
            let Some(list) = set_named(sets, name) else {
                return Err(wrong(WrittenReason::NoSet, piece));
            };
            out.extend_from_slice(list.words.as_slice())?;
            Ok(())
        }
    }
}

/// Adds the words that a word stands for: those of each piece between its commas.
pub fn push_list<'a>(
    sets: &[NamedSet<'a>],
    word: Word<'a>,
    out: &mut Vec<Word<'a>>,
) -> Result<(), LineFault<'a>>
    ensures { OnOk result ((words : List Word) × (out.new.items ≡ out.old.items ++ words)
        × AreStoodFor sets.now (slice_split is_comma (word_text word.entry)) words) }
{
    for piece in word.bytes.split(|byte| *byte == b',') {
        push_piece(sets, word, piece, out)?;
    }
    Ok(())
}
