//! What each word behind a rule's action stands for.
ghost use Rattle.std.specs.Prelude.{◌≡◌, ◌∷◌, [], IfOk, map};
ghost use Rattle.policy_expand.specs.Lists.{AreListsOf, IsListOf, IsUnionOf};
ghost use Rattle.policy_expand.specs.Written.{AreFamilies, list_words};

use crate::set_lists::{NamedSet, push_list};
use crate::visible_word::{Word, WordList};
use crate::written_fault::LineFault;
use std::alloc::{AllocError, Global};

/// What a word stands for.
pub fn list_of<'a>(
    alloc: Global,
    sets: &[NamedSet<'a>],
    word: Word<'a>,
) -> Result<WordList<'a>, LineFault<'a>>
    ensures { IfOk result (λ list. IsListOf sets.now word.entry (list_words list)) }
{
    let mut words = Vec::new(alloc);
    push_list(sets, word, &mut words)?;
    Ok(WordList { words })
}

/// What each word stands for.
pub fn lists_of<'a>(
    alloc: Global,
    sets: &[NamedSet<'a>],
    words: &[Word<'a>],
) -> Result<Vec<WordList<'a>>, LineFault<'a>>
    ensures { IfOk result (λ lists. AreListsOf sets.now words.now (map list_words lists.items)) }
{
    let mut lists = Vec::new(alloc);
    for word in words {
        lists.push(list_of(alloc, sets, *word)?)?;
    }
    Ok(lists)
}

/// What words stand for together.
pub fn union_of<'a>(
    alloc: Global,
    sets: &[NamedSet<'a>],
    words: &[Word<'a>],
) -> Result<WordList<'a>, LineFault<'a>>
    ensures { IfOk result (λ list. IsUnionOf sets.now words.now (list_words list)) }
{
    let mut union = Vec::new(alloc);
    for word in words {
        push_list(sets, *word, &mut union)?;
    }
    Ok(WordList { words: union })
}

/// A list of one word.
pub fn lone<'a>(alloc: Global, word: Word<'a>) -> Result<WordList<'a>, AllocError>
    ensures { IfOk result (λ list. list_words list ≡ word.entry ∷ []) }
{
    let mut words = Vec::new(alloc);
    words.push(word)?;
    Ok(WordList { words })
}

/// The families that a word stands for: both by `ip`.
pub fn families_of<'a>(alloc: Global, word: Word<'a>) -> Result<WordList<'a>, AllocError>
    ensures { IfOk result (λ list. AreFamilies word.entry (list_words list)) }
{
    if word.bytes != b"ip".as_slice() {
        return lone(alloc, word);
    }
    let mut words = Vec::new(alloc);
    words.push(Word { bytes: b"ipv4" })?;
    words.push(Word { bytes: b"ipv6" })?;
    Ok(WordList { words })
}
