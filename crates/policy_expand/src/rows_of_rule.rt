//! The plain rules that a written rule stands for.
ghost use Rattle.std.specs.Prelude.{◌≡◌, ◌∷◌, [], IfOk, filter, map, not};
ghost use Rattle.policy_expand.specs.Families;
ghost use Rattle.policy_expand.specs.Written.{list_words, word_text};
ghost use Rattle.policy_expand.specs.WrittenLines.{rule_written};
ghost use Rattle.policy_expand.specs.Rows;

use crate::rows_of_lists::{chosen_rows, next_rows};
use crate::visible_word::{Word, WordList};
use crate::written_fault::LineFault;
use crate::written_line::WrittenRule;
use acl_policy::prefix_of;
use packet_view::Family;
use std::alloc::{AllocError, Global};

fn other_family(family: Family) -> Family
    ensures { result ≡ Families.other_family family }
{
    match family {
        Family::V4 => Family::V6,
        Family::V6 => Family::V4,
    }
}

/// Whether a word is an address of the other family, or a prefix of one, and none of this one.
pub fn is_of_other(family: Family, word: &[u8]) -> bool
    ensures { result ≡ Families.is_of_other family word.now }
{
    prefix_of(family, word).is_none() && prefix_of(other_family(family), word).is_some()
}

// The words of a list without those of the other family.
fn kept<'a>(alloc: Global, family: Family, list: &[Word<'a>]) -> Result<Vec<Word<'a>>, AllocError>
    ensures { IfOk result (λ words. words.items ≡ Families.kept family list.now) }
{
    let mut words = Vec::new(alloc);
    for word in list {
        if !is_of_other(family, word.bytes) {
            words.push(*word)?;
        }
    }
    Ok(words)
}

// The rows of a written rule for a family's word, with these of its addresses.
fn family_rows<'a>(
    alloc: Global,
    rule: &WrittenRule<'a>,
    family: Word<'a>,
    sources: &[Word<'a>],
    dests: &[Word<'a>],
) -> Result<Vec<WordList<'a>>, LineFault<'a>>
    ensures { IfOk result (λ rows. map list_words rows.items
        ≡ Rows.family_rows (rule_written rule.now) family.entry sources.now dests.now) }
{
    let mut head = Vec::new(alloc);
    head.push(rule.direction)?;
    head.push(rule.action)?;
    head.push(family)?;
    let mut rows = Vec::new(alloc);
    rows.push(WordList { words: head })?;
    let rows = next_rows(alloc, rows.as_slice(), sources)?;
    let rows = next_rows(alloc, rows.as_slice(), dests)?;
    chosen_rows(alloc, rows, rule.rest.as_slice())
}

// The rows of a written rule for a family of both, with its addresses alone.
fn kept_rows<'a>(
    alloc: Global,
    rule: &WrittenRule<'a>,
    family: Family,
    word: Word<'a>,
) -> Result<Vec<WordList<'a>>, LineFault<'a>>
    ensures { IfOk result (λ rows. map list_words rows.items
        ≡ Rows.family_rows (rule_written rule.now) word.entry (Families.kept family rule.now.sources.words.items)
        (Families.kept family rule.now.dests.words.items)) }
{
    let sources = kept(alloc, family, rule.sources.words.as_slice())?;
    let dests = kept(alloc, family, rule.dests.words.as_slice())?;
    family_rows(alloc, rule, word, sources.as_slice(), dests.as_slice())
}

/// The plain rules that a written rule stands for, each as its words.
pub fn rule_rows<'a>(
    alloc: Global,
    rule: &WrittenRule<'a>,
) -> Result<Vec<WordList<'a>>, LineFault<'a>>
    ensures { IfOk result (λ rows. map list_words rows.items ≡ Rows.rule_rows (rule_written rule.now)) }
{
    let sources = rule.sources.words.as_slice();
    let dests = rule.dests.words.as_slice();
    match rule.families.words.as_slice() {
        [first, second] => {
            let mut rows = kept_rows(alloc, rule, Family::V4, *first)?;
            let more = kept_rows(alloc, rule, Family::V6, *second)?;
            for row in more {
                rows.push(row)?;
            }
            Ok(rows)
        }
        [family] => family_rows(alloc, rule, *family, sources, dests),
        _ => Ok(Vec::new(alloc)),
    }
}
