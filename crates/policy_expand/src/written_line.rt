//! What a written line says.
ghost use Rattle.std.specs.Prelude.{◌≡◌, ◌≢◌, ◌≤◌, ◌<◌, ◌⊎◌, ◌∷◌, List, IfOk, IsTrue, OnOk, codes, false, length};
ghost use Rattle.policy_expand.specs.declared.visible_word.Word.{Word};
ghost use Rattle.policy_expand.specs.WrittenLines.{AddsSet, IsReadAs, IsRuleOf, rule_written, line_written};

use crate::set_lists::{NamedSet, set_named};
use crate::visible_word::{Word, WordList};
use crate::word_lists::{families_of, list_of, lists_of, union_of};
use crate::written_fault::{LineFault, WrittenReason, wrong};
use std::alloc::Global;

/// A rule of which each word behind the action may stand for several.
#[derive(Drop)]
pub struct WrittenRule<'a> {
    pub direction: Word<'a>,
    pub action: Word<'a>,
    pub families: WordList<'a>,
    pub sources: WordList<'a>,
    pub dests: WordList<'a>,
    /// What the words behind the addresses stand for.
    pub rest: Vec<WordList<'a>>,
}

/// What a written line says.
#[derive(Drop)]
pub enum Written<'a> {
    /// Nothing of its own: it has no words, or a set.
    Nothing,
    /// The words of a plain line.
    Plain(WordList<'a>),
    Rule(WrittenRule<'a>),
}

// The rule that words write.
fn rule_of<'a>(
    alloc: Global,
    sets: &[NamedSet<'a>],
    words: &[Word<'a>],
) -> Result<WrittenRule<'a>, LineFault<'a>>
    requires { 5 ≤ length words.now }
    ensures { IfOk result (λ rule. IsRuleOf sets.now words.now (rule_written rule)) }
{
    let [direction, action, family, source, dest, rest @ ..] = words else {
        return Err(wrong(WrittenReason::Missing, b""));
    };
    Ok(WrittenRule {
        direction: *direction,
        action: *action,
        families: families_of(alloc, *family)?,
        sources: list_of(alloc, sets, *source)?,
        dests: list_of(alloc, sets, *dest)?,
        rest: lists_of(alloc, sets, rest)?,
    })
}

// Whether a set may have this name: a list can name it.
fn is_name(word: &[u8]) -> bool {
    !word.iter().any(|byte| *byte == b',' || *byte == b'@')
}

// Adds the set of this name and of what these words stand for.
fn add_set<'a>(
    alloc: Global,
    sets: &mut Vec<NamedSet<'a>>,
    name: Word<'a>,
    words: &[Word<'a>],
) -> Result<(), LineFault<'a>>
    ensures { OnOk result (AddsSet sets.old.items name.entry words.now sets.new.items) }
{
    if !is_name(name.bytes) {
        return Err(wrong(WrittenReason::NoName, name.bytes));
    }
    if set_named(sets.as_slice(), name.bytes).is_some() {
        return Err(wrong(WrittenReason::SecondSet, name.bytes));
    }
    let list = union_of(alloc, sets.as_slice(), words)?;
    sets.push(NamedSet { name, list })?;
    Ok(())
}

// Adds the set that the words of a line define.
fn define_set<'a>(
    alloc: Global,
    sets: &mut Vec<NamedSet<'a>>,
    words: &[Word<'a>],
) -> Result<(), LineFault<'a>>
    ensures { OnOk result ((first name : Word) × (more : List Word) × (words.now ≡ first ∷ name ∷ more)
        × AddsSet sets.old.items name more sets.new.items) }
{
    let [_, name, more @ ..] = words else {
        return Err(wrong(WrittenReason::Missing, b""));
    };
    if more.is_empty() {
        return Err(wrong(WrittenReason::Missing, b""));
    }
    add_set(alloc, sets, *name, more)?;
    Ok(())
}

// Whether a word is this one.
fn is_word(word: &[u8], name: &[u8]) -> bool
    ensures yes { IsTrue result → word.now ≡ name.now }
    ensures no { result ≡ false → word.now ≢ name.now }
{
    word == name
}

// Whether so many words, of which this is the first, are a plain line.
fn is_plain(first: &[u8], count: usize) -> bool
    ensures line { IsTrue result → (count < 5) ⊎ ((first.now ≡ codes "mac") ⊎ (first.now ≡ codes "interface")) }
    ensures rule { result ≡ false → 5 ≤ count }
{
    count < 5 || is_word(first, b"mac") || is_word(first, b"interface")
}

/// What the words of a line say. A set that they define joins the others.
pub fn read_written_words<'a>(
    alloc: Global,
    sets: &mut Vec<NamedSet<'a>>,
    words: Vec<Word<'a>>,
) -> Result<Written<'a>, LineFault<'a>>
    ensures { IfOk result (λ written. IsReadAs sets.old.items words.entry.items (line_written written) sets.new.items) }
{
    let Some(first) = words.first().copied() else {
        return Ok(Written::Nothing);
    };
    if is_word(first.bytes, b"set") {
        define_set(alloc, sets, words.as_slice())?;
        return Ok(Written::Nothing);
    }
    if is_plain(first.bytes, words.len()) {
        return Ok(Written::Plain(WordList { words }));
    }
    Ok(Written::Rule(rule_of(alloc, sets.as_slice(), words.as_slice())?))
}
