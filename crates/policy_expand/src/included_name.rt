//! The file that a line includes.
ghost use Rattle.std.specs.Prelude.{◌≡◌, ◌≤◌, ◌∷◌, [], IfErr, IfOk, MatchOption, List, ℕ, codes, false, length, string_bytes, take, true};
ghost use Rattle.acl_policy.specs.Words.{without_comment, words_of};
ghost use Rattle.policy_expand.specs.Inclusions.{Includes, IsFolder, IsNamedIn, IsOrdinary};
ghost use Rattle.policy_expand.specs.Sources.{source_facts};

use crate::file_lines::SourceLine;
use crate::word_reading::visible_word;
use crate::written_fault::{LineFault, WrittenReason, wrong};
use acl_policy::{before_comment, next_word};
use std::alloc::{AllocError, Global};

// How much of a file's name is that of its folder.
fn folder_length(file: &[u8]) -> usize
    ensures folder { IsFolder file.now (take result file.now) }
    ensures within { result ≤ length file.now }
{
    let mut end = file.len();
    'names: while end > 0 {
        if file[end - 1] == b'/' {
            return end;
        }
        end -= 1;
    }
    0
}

// Whether a name begins with `/`.
fn is_rooted(word: &[u8]) -> bool
    ensures yes { result ≡ true → (rest : List ℕ) × (word.now ≡ 47 ∷ rest) }
    ensures no { result ≡ false → (rest : List ℕ) → word.now ≡ 47 ∷ rest → ⊥ }
{
    !word.is_empty() && word[0] == b'/'
}

// The name that a word of a file names.
fn named_in(alloc: Global, file: &[u8], word: &[u8]) -> Result<Vec<u8>, AllocError>
    ensures { IfOk result (λ name. IsNamedIn file.now word.now name.items) }
{
    if is_rooted(word) {
        return Vec::from_slice(alloc, word);
    }
    let mut name = Vec::from_slice(alloc, &file[..folder_length(file)])?;
    name.extend_from_slice(word)?;
    Ok(name)
}

// The word of a line that names the file which it includes. None: it includes none.
fn include_word(line: &[u8]) -> Result<Option<&[u8]>, LineFault<'_>>
    ensures err { IfErr result (λ _. (more : List (List ℕ)) × (words_of (without_comment line.now) ≡ codes "include" ∷ more)) }
    ensures ok { IfOk result (λ found. MatchOption found
        ((more : List (List ℕ)) → words_of (without_comment line.now) ≡ codes "include" ∷ more → ⊥)
        (λ word. words_of (without_comment line.now) ≡ codes "include" ∷ word.now ∷ [])) }
{
    let Some((first, rest)) = next_word(before_comment(line)) else {
        return Ok(None);
    };
    if first != b"include".as_slice() {
        return Ok(None);
    }
    let Some((word, rest)) = next_word(rest) else {
        return Err(wrong(WrittenReason::Missing, b""));
    };
    match next_word(rest) {
        None => Ok(Some(word)),
        Some((other, _)) => Err(wrong(WrittenReason::SecondFile, other)),
    }
}

/// Whether a line includes no file. One whose include is wrong includes one.
pub fn is_ordinary(line: &[u8]) -> bool
    ensures yes { result ≡ true → (more : List (List ℕ)) → words_of (without_comment line.now) ≡ codes "include" ∷ more → ⊥ }
    ensures no { result ≡ false → (more : List (List ℕ)) × (words_of (without_comment line.now) ≡ codes "include" ∷ more) }
{
    match include_word(line) {
        Ok(None) => true,
        _ => false,
    }
}

/// The name of the file that a line includes. None: it includes none.
pub fn included_name<'a>(
    alloc: Global,
    line: &SourceLine<'a>,
) -> Result<Option<String>, LineFault<'a>>
    ensures { IfOk result (λ found. MatchOption found (IsOrdinary (source_facts line.now))
        (λ name. Includes (source_facts line.now) (string_bytes name))) }
{
    let Some(word) = include_word(line.text)? else {
        return Ok(None);
    };
    if visible_word(word).is_none() {
        return Err(wrong(WrittenReason::Unseen, word));
    }
    match String::from_utf8(named_in(alloc, line.file.as_bytes(), word)?) {
        Ok(name) => Ok(Some(name)),
        Err(_) => Err(wrong(WrittenReason::Unseen, word)),
    }
}
